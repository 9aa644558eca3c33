//! Which interrupts are to leave an interface before a call ends.
ghost use Rattle.std.specs.Prelude.{◌≡◌, ◌==◌, ◌&&◌, not, filter, IfOk, OnOk};
ghost use Rattle.history_check.specs.Words.{is_same_key};
ghost use Rattle.history_check.specs.Calls.{CanHappen};
ghost use Rattle.history_check.specs.Histories.{after_leaving};
ghost use Rattle.history_check.specs.Ready.{IsReady};
ghost use Rattle.history_check.specs.Track.{HasPlaces};

use history_check::{Event, Key, Leaving, ListOf, State, Track};
use std::alloc::{AllocError, Global};

/// Those that are still to leave after an interrupt left a vCPU's interface.
fn without(
    alloc: Global,
    leaving: &[Leaving],
    vcpu: u32,
    key: Key,
) -> Result<ListOf<Leaving>, AllocError>
    ensures { IfOk result (λ rest. rest ≡ filter (λ pair. not (pair.0 == vcpu && is_same_key pair.1 key)) leaving.now) }
{
    let mut rest = ListOf::new(alloc);
    for one in leaving {
        if !(one.vcpu == vcpu && one.key == key) {
            rest.push(Leaving {
                vcpu: one.vcpu,
                key: one.key,
            })?;
        }
    }
    Ok(rest)
}

/// What an event makes of those that are to leave: one that left has, and one that an access deactivates may have to.
/// `AllocError` where memory is refused: then nothing is noted.
pub(crate) fn note_leaving(
    track: &mut Track,
    alloc: Global,
    state: &State,
    event: &Event,
) -> Result<(), AllocError>
    requires ready { IsReady state.now }
    requires places { HasPlaces state.now.guest.shape track.old }
    requires can { CanHappen state.now.guest.shape event.now }
    ensures value { OnOk result (track.new ≡ after_leaving state.now event.now track.old) }
    ensures doings { OnOk result (track.new.doings ≡ track.old.doings) }
    ensures places { HasPlaces state.now.guest.shape track.new }
{
    match *event {
        Event::Leave { key, vcpu } => {
            track.leaving = without(alloc, track.leaving.as_slice(), vcpu, key)?;
        }
        Event::Cpu { vcpu, reg, write } => {
            if let Some(key) = track.left_behind(state, vcpu, reg, write) {
                track.leaving.push(Leaving { vcpu, key })?;
            }
        }
        _ => {}
    }
    Ok(())
}
