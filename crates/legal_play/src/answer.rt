//! Whether interrupts that wait may still be answered.
ghost use Rattle.std.specs.Prelude.{◌≡◌, IfOk, IsTrue, Some, false};
ghost use Rattle.std.specs.List.{list_all, list_any};
ghost use Rattle.std.specs.Option.{option_map_or};
ghost use Rattle.legal_steps.specs.Words.{IsShape};
ghost use Rattle.legal_steps.specs.Histories.{Course, call_of, doing_of};
ghost use Rattle.legal_steps.specs.LegalLists.Legal.{may_make as may_make_of};
ghost use Rattle.legal_steps.specs.Waiting.{may_be_answered as may_be_answered_of};
ghost use Rattle.legal_play.specs.Pieces.{AreCalls};
ghost use Rattle.legal_play.specs.Answering.{AreGood};
ghost use Rattle.history_play.specs.HistoryCheck.Track.{doing_in};

use crate::may::may_make;
use crate::pieces::piece_of;
use crate::waiting::Waiting;
use history_play::{Doing, GuestShape, Key, ListOf, Made, Operation, Track};
use std::alloc::{AllocError, Global};

/// What an actor's call is for, if it is in one.
pub fn operation_of(doings: &[Doing], actor: u32) -> Option<Operation>
    ensures { result ≡ (doing_in doings.now actor).operation }
{
    match doings.get(actor as usize) {
        Some(doing) => doing.operation,
        None => None,
    }
}

/// Whether an actor may still answer an interrupt.
#[tactic(auto, using(crate::proofs::AnswerLemmas::answers, crate::proofs::AnswerLemmas::answers_not))]
fn may_answer(
    alloc: Global,
    shape: &GuestShape,
    track: &Track,
    pieces: &[ListOf<Made>],
    actor: u32,
    key: Key,
) -> Result<bool, AllocError>
    requires shape { IsShape shape.now }
    requires good { AreGood shape.now track.now }
    ensures { (course : Course) → AreCalls course track.now pieces.now → IfOk result (λ may. may ≡ option_map_or (λ call. may_make_of shape.now actor call key) (call_of course actor) false) }
{
    match operation_of(track.doings.as_slice(), actor) {
        Some(operation) => may_make(
            alloc,
            shape,
            actor,
            &operation,
            piece_of(pieces, actor),
            key,
        ),
        None => Ok(false),
    }
}

/// Whether an interrupt that waits may still be answered.
fn may_be_answered(
    alloc: Global,
    shape: &GuestShape,
    track: &Track,
    pieces: &[ListOf<Made>],
    waiting: &Waiting,
) -> Result<bool, AllocError>
    requires shape { IsShape shape.now }
    requires good { AreGood shape.now track.now }
    ensures { (course : Course) → AreCalls course track.now pieces.now → IfOk result (λ may. may ≡ may_be_answered_of shape.now course waiting.now) }
{
    for actor in waiting.actors.as_slice() {
        if may_answer(alloc, shape, track, pieces, *actor, waiting.key)? {
            return Ok(true);
        }
    }
    Ok(false)
}

/// Whether each of these interrupts may still be answered, where a track and pieces are of the calls of a course, which the guest can do.
/// `AllocError` where memory is refused.
pub fn may_all_be_answered(
    alloc: Global,
    shape: &GuestShape,
    track: &Track,
    pieces: &[ListOf<Made>],
    waits: &[Waiting],
) -> Result<bool, AllocError>
    requires shape { IsShape shape.now }
    requires good { AreGood shape.now track.now }
    ensures { (course : Course) → AreCalls course track.now pieces.now → IfOk result (λ may. may ≡ list_all (may_be_answered_of shape.now course) waits.now) }
{
    for waiting in waits {
        if !may_be_answered(alloc, shape, track, pieces, waiting)? {
            return Ok(false);
        }
    }
    Ok(true)
}
