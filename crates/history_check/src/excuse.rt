//! Fresh at an acknowledge: which interrupts come first, and which of them an open call excuses.
ghost use Rattle.std.specs.Prelude.{◌≡◌, ◌<◌, ◌||◌, not, true, IsTrue};
ghost use Rattle.std.specs.Option.{option_map_or};
ghost use Rattle.floor_histories.specs.Words.{has_interrupt};
ghost use Rattle.floor_histories.specs.Registers.{is_before, first_of, candidates_at};
ghost use Rattle.floor_histories.specs.Calls.{Event};
ghost use Rattle.floor_histories.specs.Histories.{interface_at, asks_first as asks_first_of, comes_first as comes_first_of, is_excused as is_excused_of, is_fresh_at_acknowledge as is_fresh_of};
ghost use Rattle.history_check.specs.Ready.{IsReady};
ghost use Rattle.history_check.specs.Track.{HasPlaces};

use crate::coming::is_awaited;
use crate::state::State;
use crate::track::Track;
use floor_histories::{Candidate, IccReg, Key, Moment, deliverable, interrupt_count, key_at};

/// Whether a candidate is before the first of others, or there is none.
fn is_ahead(candidate: &Candidate, first: Option<Candidate>) -> bool
    ensures { result ≡ option_map_or (is_before candidate.now) first true }
{
    first.is_none_or(|other| candidate.is_before(&other))
}

/// Whether a home interrupt can be delivered to a vCPU, and is before the first at its interface, or nothing is there.
pub fn comes_first(state: &State, vcpu: u32, key: Key, first: Option<Candidate>) -> bool
    requires ready { IsReady state.now }
    requires there { vcpu < state.now.guest.shape.vcpus }
    requires key { IsTrue (has_interrupt state.now.guest.shape key) }
    requires first { first ≡ first_of (candidates_at (interface_at state.now vcpu)) }
    ensures { result ≡ comes_first_of state.now vcpu key }
{
    let irq = state.irq(key);
    let candidate = Candidate {
        id: key.intid(),
        prio: irq.prio,
        group: irq.group,
    };
    let can = deliverable(key, &irq, vcpu, &state.cpu(vcpu));
    let ahead = is_ahead(&candidate, first);
    state.is_home(key) && can && ahead
}

/// Whether an interrupt was changed last in an open call, or one has still to make an event of it, where these moments come
/// next.
fn is_excused(track: &Track, state: &State, vcpu: u32, key: Key, later: &[Moment]) -> bool
    requires ready { IsReady state.now }
    requires places { HasPlaces state.now.guest.shape track.now }
    requires key { IsTrue (has_interrupt state.now.guest.shape key) }
    ensures { result ≡ is_excused_of later.now state.now track.now vcpu key }
{
    track.is_last_open(state.shape(), vcpu, key)
        || is_awaited(state.shape(), later, track, vcpu, key)
}

/// Whether an interrupt that comes first is excused.
fn may_wait(
    track: &Track,
    state: &State,
    vcpu: u32,
    key: Key,
    first: Option<Candidate>,
    later: &[Moment],
) -> bool
    requires ready { IsReady state.now }
    requires places { HasPlaces state.now.guest.shape track.now }
    requires there { vcpu < state.now.guest.shape.vcpus }
    requires key { IsTrue (has_interrupt state.now.guest.shape key) }
    requires first { first ≡ first_of (candidates_at (interface_at state.now vcpu)) }
    ensures { result ≡ (not (comes_first_of state.now vcpu key) || is_excused_of later.now state.now track.now vcpu key) }
{
    !comes_first(state, vcpu, key, first) || is_excused(track, state, vcpu, key, later)
}

/// Whether an access asks for the first interrupt: it reads IAR or HPPIR of a group.
pub fn asks_first(reg: IccReg, write: Option<u64>) -> bool
    ensures { result ≡ asks_first_of reg write }
{
    let asks = matches!(
        reg,
        IccReg::Iar0 | IccReg::Iar1 | IccReg::Hppir0 | IccReg::Hppir1
    );
    asks && write.is_none()
}

/// At an access of a CPU interface register after which these moments come: where it reads IAR or HPPIR, whether each home
/// interrupt that can be delivered to the vCPU and is before the first at its interface was changed last in an open call, or
/// an open call has still to make an event of it.
pub fn is_fresh_at_acknowledge(
    track: &Track,
    state: &State,
    vcpu: u32,
    reg: IccReg,
    write: Option<u64>,
    later: &[Moment],
) -> bool
    requires ready { IsReady state.now }
    requires places { HasPlaces state.now.guest.shape track.now }
    requires there { vcpu < state.now.guest.shape.vcpus }
    ensures { result ≡ is_fresh_of later.now state.now track.now (Event.Cpu vcpu reg write) }
{
    if !asks_first(reg, write) {
        return true;
    }
    let first = state.first_at(vcpu);
    for place in 0..interrupt_count(state.shape()) {
        let key = key_at(place, state.shape());
        if !may_wait(track, state, vcpu, key, first, later) {
            return false;
        }
    }
    true
}
