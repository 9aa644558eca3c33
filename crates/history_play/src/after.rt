//! The state and the track after a moment.
ghost use Rattle.std.specs.Prelude.{◌≡◌, false, ◌<◌, ◌+◌, ◌^◌, OnOk};
ghost use Rattle.history_check.specs.Calls.{CanHappen, Found};
ghost use Rattle.history_check.specs.Histories.{happened, after_moment, tracked};
ghost use Rattle.history_check.specs.Ready.{IsReady};
ghost use Rattle.history_play.specs.Coming.{is_unknown, CanFollow};
ghost use Rattle.history_play.specs.Kept.{IsKept};

use crate::track::{begins, ends, happens};
use history_check::{Event, Moment, NoMemory, QueueChange, State, Track};
use std::alloc::Global;

/// The state after the queue of the ITS changed: a command that ended has no fault.
fn change_queue(
    state: &mut State,
    alloc: Global,
    actor: u32,
    offset: u32,
    change: QueueChange,
) -> Result<(), NoMemory>
    requires ready { IsReady state.old }
    requires can { CanHappen state.old.guest.shape (Event.Queue offset change) }
    requires known { (found : Found) → is_unknown state.old (Moment.Happens actor (Event.Queue offset change) found) ≡ false }
    ensures value { OnOk result (state.new ≡ happened actor (Event.Queue offset change) state.old) }
    ensures ready { IsReady state.new }
{
    match change {
        QueueChange::Done { words } => state.finish(offset, words),
        _ => state.happens(alloc, actor, &Event::Queue { offset, change })?,
    }
    Ok(())
}

/// The state after an event.
fn step(state: &mut State, alloc: Global, actor: u32, event: &Event) -> Result<(), NoMemory>
    requires ready { IsReady state.old }
    requires can { CanHappen state.old.guest.shape event.now }
    requires known { (found : Found) → is_unknown state.old (Moment.Happens actor event.now found) ≡ false }
    ensures value { OnOk result (state.new ≡ happened actor event.now state.old) }
    ensures ready { IsReady state.new }
{
    match *event {
        Event::Queue { offset, change } => change_queue(state, alloc, actor, offset, change),
        _ => {
            state.happens(alloc, actor, event)?;
            Ok(())
        }
    }
}

/// The state and the track after a moment, of a history of so many moments before it. `NoMemory` where memory is refused:
/// then both are of no further use.
pub fn follow(
    state: &mut State,
    track: &mut Track,
    alloc: Global,
    moment: &Moment,
    moments: u64,
) -> Result<(), NoMemory>
    requires ready { IsReady state.old }
    requires kept { IsKept state.old.guest.shape moments track.old }
    requires room { moments + 1 < 2 ^ 64 }
    requires follow { CanFollow state.old moment.now }
    ensures state { OnOk result (state.new ≡ after_moment state.old moment.now) }
    ensures track { OnOk result (track.new ≡ tracked state.old moment.now track.old) }
    ensures ready { IsReady state.new }
{
    match moment {
        Moment::Begin { actor, operation } => begins(track, alloc, *actor, *operation),
        Moment::Happens { actor, event, .. } => {
            happens(track, alloc, state, *actor, event)?;
            step(state, alloc, *actor, event)?;
        }
        Moment::End { actor, .. } => ends(track, alloc, *actor)?,
    }
    Ok(())
}
