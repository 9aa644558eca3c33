//! What a board says of its guest and of an actor.
ghost use Rattle.std.specs.Prelude.{◌≡◌};
ghost use Rattle.trace_told.specs.Histories.{doing_of};
ghost use Rattle.trace_told.specs.LegalPlay.Pieces.{piece_of as piece_in};

use trace_told::{Board, GuestShape, Made, Operation, State, operation_in, piece_of};

/// The state of the guest.
pub(crate) fn state_of(board: &Board) -> &State
    ensures { result.now ≡ board.now.state }
{
    &board.state
}

/// How many of each kind the guest has.
pub(crate) fn shape_of(board: &Board) -> &GuestShape
    ensures { result.now ≡ board.now.state.guest.shape }
{
    board.state.shape()
}

/// What an actor's call is for, if it is in one.
pub(crate) fn operation_at(board: &Board, actor: u32) -> Option<Operation>
    ensures { result ≡ (doing_of board.now.track actor).operation }
{
    operation_in(board.track.doings.as_slice(), actor)
}

/// The events that an actor made in its call.
pub(crate) fn piece_at(board: &Board, actor: u32) -> &[Made]
    ensures { result.now ≡ piece_in board.now.pieces actor }
{
    piece_of(board.pieces.as_slice(), actor)
}
