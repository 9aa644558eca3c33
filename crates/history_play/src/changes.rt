//! Who changed an interrupt last, and since it got to the interface where it is.
ghost use Rattle.std.specs.Prelude.{◌≡◌, ◌<◌, ◌++◌, ◌∷◌, [], IfOk, OnOk, IsTrue, Some, length};
ghost use Rattle.history_check.specs.Words.{has_interrupt, IsShape};
ghost use Rattle.history_check.specs.Calls.{CanHappen};
ghost use Rattle.history_check.specs.Histories.{turn_of as turn_in, changed_by as changed_by_of, with_changes, after_changes};
ghost use Rattle.history_check.specs.Track.{HasPlaces};

use history_check::{Changes, Event, GuestShape, Key, ListOf, Track, Turn, key_in, place_of};
use std::alloc::{AllocError, Global};

/// A second value of a call, equal to it.
pub(crate) fn copied(turn: &Turn) -> Turn
    ensures { result ≡ turn.now }
{
    Turn {
        actor: turn.actor,
        number: turn.number,
    }
}

/// Some calls, and one more.
fn and_one(alloc: Global, turns: &[Turn], one: Turn) -> Result<ListOf<Turn>, AllocError>
    ensures { IfOk result (λ all. all ≡ turns.now ++ one ∷ []) }
{
    let mut all = ListOf::new(alloc);
    for turn in turns {
        all.push(copied(turn))?;
    }
    all.push(one)?;
    Ok(all)
}

/// The call of an actor, or the command of it, that it is in.
fn turn_of(track: &Track, actor: u32) -> Turn
    requires { actor < length track.now.doings }
    ensures { result ≡ turn_in track.now actor }
{
    let doing = &track.doings.as_slice()[actor as usize];
    Turn {
        actor,
        number: doing.number,
    }
}

/// The interrupt that an event changes, if it changes one: as part of a call, or as it leaves.
fn changed_by(event: &Event) -> Option<Key>
    ensures { result ≡ changed_by_of event.now }
{
    match *event {
        Event::Leave { key, .. } => Some(key),
        _ => key_in(event),
    }
}

/// Puts other changes in the place of an interrupt's.
fn set_changes(track: &mut Track, shape: &GuestShape, key: Key, changes: Changes)
    requires shape { IsShape shape.now }
    requires places { HasPlaces shape.now track.old }
    requires there { IsTrue (has_interrupt shape.now key) }
    ensures value { track.new ≡ with_changes shape.now key (λ before. changes) track.old }
    ensures places { HasPlaces shape.now track.new }
{
    let place = place_of(key, shape);
    track.changes.set(place, changes);
}

/// An interrupt got to an interface: nobody changed it since.
fn note_reach(track: &mut Track, alloc: Global, shape: &GuestShape, key: Key)
    requires shape { IsShape shape.now }
    requires places { HasPlaces shape.now track.old }
    requires there { IsTrue (has_interrupt shape.now key) }
    ensures value { track.new ≡ with_changes shape.now key (λ changes. record changes { since = [] }) track.old }
    ensures places { HasPlaces shape.now track.new }
{
    let last = track.changes(shape, key).last.as_ref().map(copied);
    let since = ListOf::new(alloc);
    set_changes(track, shape, key, Changes { last, since });
}

/// An actor changed an interrupt.
fn note_change(
    track: &mut Track,
    alloc: Global,
    shape: &GuestShape,
    actor: u32,
    key: Key,
) -> Result<(), AllocError>
    requires shape { IsShape shape.now }
    requires places { HasPlaces shape.now track.old }
    requires there { IsTrue (has_interrupt shape.now key) }
    requires actor { actor < length track.old.doings }
    ensures value { OnOk result (track.new ≡ with_changes shape.now key (λ changes. record { last = Some (turn_in track.old actor); since = changes.since ++ turn_in track.old actor ∷ [] }) track.old) }
    ensures places { HasPlaces shape.now track.new }
{
    let before = track.changes(shape, key);
    let since = and_one(alloc, before.since.as_slice(), turn_of(track, actor))?;
    let last = Some(turn_of(track, actor));
    set_changes(track, shape, key, Changes { last, since });
    Ok(())
}

/// What an event of an actor changes. `AllocError` where memory is refused: then nothing is noted.
pub(crate) fn note_changes(
    track: &mut Track,
    alloc: Global,
    shape: &GuestShape,
    actor: u32,
    event: &Event,
) -> Result<(), AllocError>
    requires shape { IsShape shape.now }
    requires places { HasPlaces shape.now track.old }
    requires can { CanHappen shape.now event.now }
    requires actor { actor < length track.old.doings }
    ensures value { OnOk result (track.new ≡ after_changes shape.now actor event.now track.old) }
    ensures doings { OnOk result (track.new.doings ≡ track.old.doings) }
    ensures places { HasPlaces shape.now track.new }
{
    if let Event::Reach { key, .. } = *event {
        note_reach(track, alloc, shape, key);
        return Ok(());
    }
    match changed_by(event) {
        Some(key) => note_change(track, alloc, shape, actor, key),
        None => Ok(()),
    }
}
