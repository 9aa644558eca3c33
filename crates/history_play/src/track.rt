//! What a history says of its actors and its interrupts, moment by moment.
ghost use Rattle.std.specs.Prelude.{◌≡◌, ℕ, ◌<◌, ◌+◌, ◌^◌, [], Option, None, false, IfOk, OnOk, length, replicate};
ghost use Rattle.history_check.specs.Words.{IsShape};
ghost use Rattle.history_check.specs.Calls.{CanHappen, Found, Moment};
ghost use Rattle.history_check.specs.Histories.{Ideal, opening_track as opening_track_of, doing_of, tracked};
ghost use Rattle.history_check.specs.Ready.{IsReady};
ghost use Rattle.history_check.specs.Track.{HasPlaces};

use crate::changes::note_changes;
use crate::doings::{copied_keys, doing_after};
use crate::leaving::note_leaving;
use history_check::{
    Changes, Doing, Event, GuestShape, ListOf, Operation, State, Track, interrupt_count,
};
use std::alloc::{AllocError, Global};

/// So many actors, none of which is in a call.
fn idle(alloc: Global, actors: u32) -> Result<ListOf<Doing>, AllocError>
    ensures { IfOk result (λ doings. doings ≡ replicate actors (record { operation = None; number = 0; done = []; fetched = false })) }
{
    let mut doings = ListOf::new(alloc);
    for actor in 0..actors {
        let _ = actor;
        doings.push(Doing {
            operation: None,
            number: 0,
            done: ListOf::new(alloc),
            fetched: false,
        })?;
    }
    Ok(doings)
}

/// So many interrupts, none of which changed.
fn unchanged(alloc: Global, interrupts: usize) -> Result<ListOf<Changes>, AllocError>
    ensures { IfOk result (λ changes. changes ≡ replicate interrupts (record { last = None; since = [] })) }
{
    let mut changes = ListOf::new(alloc);
    for place in 0..interrupts {
        let _ = place;
        changes.push(Changes {
            last: None,
            since: ListOf::new(alloc),
        })?;
    }
    Ok(changes)
}

/// The track of a guest as it opens. `AllocError` where memory is refused.
pub fn opening_track(alloc: Global, shape: &GuestShape) -> Result<Track, AllocError>
    requires { IsShape shape.now }
    ensures { IfOk result (λ track. track ≡ opening_track_of shape.now) }
{
    Ok(Track {
        doings: idle(alloc, shape.vcpus + shape.devices)?,
        changes: unchanged(alloc, interrupt_count(shape))?,
        leaving: ListOf::new(alloc),
    })
}

/// A call of an actor begins.
pub fn begins(track: &mut Track, alloc: Global, actor: u32, operation: Operation)
    requires there { actor < length track.old.doings }
    requires room { (doing_of track.old actor).number + 1 < 2 ^ 64 }
    ensures { (state : Ideal) → track.new ≡ tracked state (Moment.Begin actor operation) track.old }
{
    let before = &track.doings.as_slice()[actor as usize];
    let doing = Doing {
        operation: Some(operation),
        number: before.number + 1,
        done: ListOf::new(alloc),
        fetched: false,
    };
    track.doings.set(actor as usize, doing);
}

/// An event of an actor happens in a state. `AllocError` where memory is refused: then the track is of no further use.
pub fn happens(
    track: &mut Track,
    alloc: Global,
    state: &State,
    actor: u32,
    event: &Event,
) -> Result<(), AllocError>
    requires ready { IsReady state.now }
    requires places { HasPlaces state.now.guest.shape track.old }
    requires can { CanHappen state.now.guest.shape event.now }
    requires there { actor < length track.old.doings }
    requires room { (doing_of track.old actor).number + 1 < 2 ^ 64 }
    ensures { (found : Found) → OnOk result (track.new ≡ tracked state.now (Moment.Happens actor event.now found) track.old) }
{
    let doing = doing_after(
        alloc,
        state,
        &track.doings.as_slice()[actor as usize],
        actor,
        event,
    )?;
    note_changes(track, alloc, state.shape(), actor, event)?;
    note_leaving(track, alloc, state, event)?;
    track.doings.set(actor as usize, doing);
    Ok(())
}

/// The call of an actor ends. `AllocError` where memory is refused: then the track is as it was.
pub fn ends(track: &mut Track, alloc: Global, actor: u32) -> Result<(), AllocError>
    requires there { actor < length track.old.doings }
    ensures { (state : Ideal) (answer : Option ℕ) → OnOk result (track.new ≡ tracked state (Moment.End actor answer) track.old) }
{
    let before = &track.doings.as_slice()[actor as usize];
    let doing = Doing {
        operation: None,
        number: before.number,
        done: copied_keys(alloc, before.done.as_slice())?,
        fetched: before.fetched,
    };
    track.doings.set(actor as usize, doing);
    Ok(())
}
