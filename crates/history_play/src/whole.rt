//! Whether a list of moments is a fresh history of a guest.
ghost use Rattle.std.specs.Prelude.{◌≡◌, ◌<◌, ◌+◌, IfOk, IfSome, IfNone, length, drop};
ghost use Rattle.history_check.specs.Histories.{IsFresh};
ghost use Rattle.history_check.specs.IdealGuests.Opening.{opening as opening_guest};
ghost use Rattle.history_check.specs.Calls.{IsGoodGuest};
ghost use Rattle.history_play.specs.Played.{IsAllowed, IsRefused};

use crate::after::follow;
use crate::track::opening_track;
use crate::verdict::{Cause, judge};
use history_check::{GuestSpec, Moment, NoMemory, State};
use std::alloc::Global;

/// The first moment that does not go on with a fresh history, by its index from 0, and why it does not.
#[derive(Clone, Copy, Debug, PartialEq, Eq, Hash)]
pub struct Refusal {
    pub moment: usize,
    pub cause: Cause,
}

/// The moments after the one with an index.
fn moments_after(moments: &[Moment], number: usize) -> &[Moment]
    requires { number < length moments.now }
    ensures { result.now ≡ drop (number + 1) moments.now }
{
    &moments[number + 1..]
}

/// Plays a list of moments from a guest's opening: none where each of them is allowed and all are a fresh history, and else
/// the first that does not go on with one. Of the end of a call it asks that the actor is in one, and not what an ended call
/// has to be. `NoMemory` where memory is refused.
pub fn check(
    alloc: Global,
    guest: &GuestSpec,
    moments: &[Moment],
) -> Result<Option<Refusal>, NoMemory>
    requires { IsGoodGuest guest.now }
    ensures allowed { IfOk result (λ refusal. IfNone refusal (IsAllowed (opening_guest guest.now) moments.now)) }
    ensures fresh { IfOk result (λ refusal. IfNone refusal (IsFresh (opening_guest guest.now) moments.now)) }
    ensures refused { IfOk result (λ refusal. IfSome refusal (IsRefused (opening_guest guest.now) moments.now)) }
{
    let mut state = State::open(alloc, guest)?;
    let mut track = opening_track(alloc, &guest.shape)?;
    for number in 0..moments.len() {
        let moment = &moments[number];
        let later = moments_after(moments, number);
        if let Some(cause) = judge(&state, &track, moment, later) {
            return Ok(Some(Refusal {
                moment: number,
                cause,
            }));
        }
        follow(&mut state, &mut track, alloc, moment, number as u64)?;
    }
    Ok(None)
}
