//! A piece of an actor's events, one named event after the other.
ghost use Rattle.std.specs.Prelude.{◌≡◌};
ghost use Rattle.history_commands.specs.Walked.{is_idle as is_idle_of};
ghost use Rattle.history_commands.specs.Walked.{from_named as from_named_of, before_named as before_named_of};

use history_calls::{Made, is_beside};

/// The piece from its first named event on.
pub fn from_named(actor: Option<u32>, piece: &[Made]) -> &[Made]
    ensures { result.now ≡ from_named_of actor piece.now }
{
    for index in 0..piece.len() {
        let made = &piece[index];
        if !is_beside(actor, &made.event) {
            return &piece[index..];
        }
    }
    &piece[piece.len()..]
}

/// What is read before that.
pub fn before_named(actor: Option<u32>, piece: &[Made]) -> &[Made]
    ensures { result.now ≡ before_named_of actor piece.now }
{
    for index in 0..piece.len() {
        let made = &piece[index];
        if !is_beside(actor, &made.event) {
            return &piece[..index];
        }
    }
    piece
}

/// Whether no event of a piece is named.
pub fn is_idle(actor: Option<u32>, piece: &[Made]) -> bool
    ensures { result ≡ is_idle_of actor piece.now }
{
    piece.iter().all(|made| is_beside(actor, &made.event))
}
