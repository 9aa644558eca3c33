//! The events that each actor made in its call.
ghost use Rattle.std.specs.Prelude.{◌≡◌, ◌<◌, ◌++◌, ◌∷◌, [], IfOk, OnOk, OnErr, length, replicate};
ghost use Rattle.legal_steps.specs.Step.{actor_of};
ghost use Rattle.legal_play.specs.Pieces.{piece_of as piece_in, pieces_after as pieces_after_of};

use history_play::{CallFound as Found, Event, ListOf, Made, Moment};
use std::alloc::{AllocError, Global};

/// So many actors, none of which is in a call.
pub fn no_pieces(alloc: Global, actors: u32) -> Result<ListOf<ListOf<Made>>, AllocError>
    ensures { IfOk result (λ pieces. pieces ≡ replicate actors []) }
{
    let mut pieces = ListOf::new(alloc);
    for actor in 0..actors {
        let _ = actor;
        pieces.push(ListOf::new(alloc))?;
    }
    Ok(pieces)
}

/// The events that an actor made in its call; none where it is in no call.
pub fn piece_of(pieces: &[ListOf<Made>], actor: u32) -> &[Made]
    ensures { result.now ≡ piece_in pieces.now actor }
{
    match pieces.get(actor as usize) {
        Some(piece) => piece.as_slice(),
        None => &[],
    }
}

/// Some events, and one more.
fn and_one(
    alloc: Global,
    piece: &[Made],
    event: Event,
    found: Found,
) -> Result<ListOf<Made>, AllocError>
    ensures { IfOk result (λ more. more ≡ piece.now ++ (record { event = event; found = found }) ∷ []) }
{
    let mut more = ListOf::new(alloc);
    for made in piece {
        more.push(Made {
            event: made.event,
            found: made.found,
        })?;
    }
    more.push(Made { event, found })?;
    Ok(more)
}

/// The events of each actor's call after a moment of an actor that there is. `AllocError` where memory is refused: then nothing is noted.
pub fn note(
    pieces: &mut ListOf<ListOf<Made>>,
    alloc: Global,
    moment: &Moment,
) -> Result<(), AllocError>
    requires { actor_of moment.now < length pieces.old }
    ensures value { OnOk result (pieces.new ≡ pieces_after_of moment.now pieces.old) }
    ensures err { OnErr result (pieces.new ≡ pieces.old) }
{
    match *moment {
        Moment::Begin { actor, .. } | Moment::End { actor, .. } => {
            pieces.set(actor as usize, ListOf::new(alloc));
        }
        Moment::Happens {
            actor,
            event,
            found,
        } => {
            let more = and_one(alloc, piece_of(pieces.as_slice(), actor), event, found)?;
            pieces.set(actor as usize, more);
        }
    }
    Ok(())
}
