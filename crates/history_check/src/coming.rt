//! What open calls have still to do, as the moments that come after say.
ghost use Rattle.std.specs.Prelude.{◌≡◌, ◌==◌, ◌&&◌, not};
ghost use Rattle.floor_histories.specs.Words.{IsShape};
ghost use Rattle.floor_histories.specs.Histories.{key_in as key_of_event, is_event_of as is_event_of_key, ends_turn as ends_turn_with, has_named, doing_of, is_to_come as is_to_come_in, is_awaited as is_awaited_in};
ghost use Rattle.history_check.specs.Track.{doing_in};

use crate::track::{Doing, Track};
use floor_histories::{Event, GuestShape, Key, Moment};

/// The interrupt that an event changes or reads, if it is one of a call.
pub fn key_in(event: &Event) -> Option<Key>
    ensures { result ≡ key_of_event event.now }
{
    match *event {
        Event::Raise { key } | Event::Up { key } | Event::Down { key } | Event::Touch { key, .. } =>
            Some(key),
        _ => None,
    }
}

/// Whether an event is of an interrupt, of those that a call makes.
fn is_event_of(key: Key, event: &Event) -> bool
    ensures { result ≡ is_event_of_key key event.now }
{
    key_in(event) == Some(key)
}

/// Whether a command ends with an event, or what a call does before the next command.
fn ends_turn(event: &Event) -> bool
    ensures { result ≡ ends_turn_with event.now }
{
    matches!(event, Event::Queue { .. })
}

/// Whether an actor makes an event of an interrupt in the call, or the command of one, that it is in, where these moments
/// come next.
pub fn is_to_come(later: &[Moment], actor: u32, key: Key) -> bool
    ensures { result ≡ is_to_come_in actor key later.now }
{
    for moment in later {
        match moment {
            Moment::Happens {
                actor: other,
                event,
                ..
            } => {
                if *other == actor && is_event_of(key, event) {
                    return true;
                }
                if *other == actor && ends_turn(event) {
                    return false;
                }
            }
            Moment::Begin { actor: other, .. } | Moment::End { actor: other, .. } => {
                if *other == actor {
                    return false;
                }
            }
        }
    }
    false
}

/// Whether an actor names what it does further on. One that is none of these is in no call.
fn has_named_it(shape: &GuestShape, doings: &[Doing], actor: u32) -> bool
    ensures { result ≡ has_named shape.now (doing_in doings.now actor) }
{
    match doings.get(actor as usize) {
        Some(doing) => doing.has_named(shape),
        None => true,
    }
}

/// Whether an actor is not the vCPU, and makes an event of an interrupt in the call, or the command of one, that it is in and
/// that names it by now.
fn is_others(
    shape: &GuestShape,
    track: &Track,
    later: &[Moment],
    vcpu: u32,
    key: Key,
    actor: u32,
) -> bool
    ensures { result ≡ (not (actor == vcpu) && (has_named shape.now (doing_of track.now actor) && is_to_come_in actor key later.now)) }
{
    actor != vcpu
        && has_named_it(shape, track.doings.as_slice(), actor)
        && is_to_come(later, actor, key)
}

/// Whether an actor other than a vCPU makes an event of an interrupt in the call, or the command of one, that it is in and
/// that names it by now, where these moments come next.
pub fn is_awaited(shape: &GuestShape, later: &[Moment], track: &Track, vcpu: u32, key: Key) -> bool
    requires { IsShape shape.now }
    ensures { result ≡ is_awaited_in shape.now later.now track.now vcpu key }
{
    for actor in 0..shape.vcpus + shape.devices {
        if is_others(shape, track, later, vcpu, key, actor) {
            return true;
        }
    }
    false
}
