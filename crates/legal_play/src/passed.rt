//! Which interrupts begin to wait.
ghost use Rattle.std.specs.Prelude.{◌≡◌, ◌<◌, ◌++◌, ◌==◌, not, ◌&&◌, [], ◌∷◌, filter, map, IfOk, OnOk, IsTrue, if◌then◌else◌};
ghost use Rattle.legal_steps.specs.Words.{IsShape, has_interrupt, interrupt_count as interrupt_count_of, key_at as key_at_place};
ghost use Rattle.legal_steps.specs.Registers.{first_of, candidates_at};
ghost use Rattle.legal_steps.specs.Calls.{Cpu};
ghost use Rattle.legal_play.specs.Passing.{CanPass};
ghost use Rattle.legal_steps.specs.Histories.{doing_of, has_named, interface_at};
ghost use Rattle.history_play.specs.HistoryCheck.Ready.{IsReady};
ghost use Rattle.history_play.specs.HistoryCheck.Track.{HasPlaces, doing_in};
ghost use Rattle.legal_steps.specs.Waiting.{named_actors as named_actors_of, is_passed_by as is_passed_by_of, waits_for, passed_by as passed_by_of, waits_after as waits_after_of};

use crate::waiting::{Waiting, still_waiting};
use history_play::{
    Candidate, Doing, Event, GuestShape, IccReg, Key, ListOf, Moment, State, Track, asks_first,
    comes_first, key_at,
};
use std::alloc::{AllocError, Global};

/// Whether an actor names what it does further on. One that is none of these is in no call.
fn has_named_it(shape: &GuestShape, doings: &[Doing], actor: u32) -> bool
    ensures { result ≡ has_named shape.now (doing_in doings.now actor) }
{
    match doings.get(actor as usize) {
        Some(doing) => doing.has_named(shape),
        None => true,
    }
}

/// Whether an actor is not the vCPU, and names what it does further on.
fn is_named(shape: &GuestShape, track: &Track, vcpu: u32, actor: u32) -> bool
    ensures { result ≡ (not (actor == vcpu) && has_named shape.now (doing_of track.now actor)) }
{
    actor != vcpu && has_named_it(shape, track.doings.as_slice(), actor)
}

/// The actors other than a vCPU that name what they do further on.
#[tactic(auto, using(crate::proofs::LoopLemmas::picked, crate::proofs::LoopLemmas::skipped))]
fn named_actors(
    alloc: Global,
    shape: &GuestShape,
    track: &Track,
    vcpu: u32,
) -> Result<ListOf<u32>, AllocError>
    requires { IsShape shape.now }
    ensures { IfOk result (λ actors. actors ≡ named_actors_of shape.now track.now vcpu) }
{
    let mut actors = ListOf::new(alloc);
    for actor in 0..shape.vcpus + shape.devices {
        if is_named(shape, track, vcpu, actor) {
            actors.push(actor)?;
        }
    }
    Ok(actors)
}

/// Whether an interrupt comes first, and was changed last in no open call.
fn is_passed_by(state: &State, track: &Track, vcpu: u32, key: Key, first: Option<Candidate>) -> bool
    requires ready { IsReady state.now }
    requires places { HasPlaces state.now.guest.shape track.now }
    requires there { vcpu < state.now.guest.shape.vcpus }
    requires key { IsTrue (has_interrupt state.now.guest.shape key) }
    requires first { first ≡ first_of (candidates_at (interface_at state.now vcpu)) }
    ensures { result ≡ is_passed_by_of state.now track.now vcpu key }
{
    comes_first(state, vcpu, key, first) && !track.is_last_open(state.shape(), vcpu, key)
}

/// Notes the interrupt at a place, if it is passed by.
fn push_if_passed(
    waits: &mut ListOf<Waiting>,
    alloc: Global,
    state: &State,
    track: &Track,
    vcpu: u32,
    first: Option<Candidate>,
    place: usize,
) -> Result<(), AllocError>
    requires ready { IsReady state.now }
    requires places { HasPlaces state.now.guest.shape track.now }
    requires there { vcpu < state.now.guest.shape.vcpus }
    requires first { first ≡ first_of (candidates_at (interface_at state.now vcpu)) }
    requires place { place < interrupt_count_of state.now.guest.shape }
    ensures { OnOk result (waits.new ≡ waits.old ++ map (waits_for state.now.guest.shape track.now vcpu) (if is_passed_by_of state.now track.now vcpu (key_at_place state.now.guest.shape place) then key_at_place state.now.guest.shape place ∷ [] else [])) }
{
    let key = key_at(place, state.shape());
    if is_passed_by(state, track, vcpu, key, first) {
        let actors = named_actors(alloc, state.shape(), track, vcpu)?;
        waits.push(Waiting { key, actors })?;
    }
    Ok(())
}

/// Notes the interrupts that an access of a CPU interface passes by, where it asks for the first one: it looks at those that are pending alone. `AllocError` where memory is
/// refused: then some of them may be noted.
fn push_passed(
    waits: &mut ListOf<Waiting>,
    alloc: Global,
    state: &State,
    track: &Track,
    vcpu: u32,
    reg: IccReg,
    write: Option<u64>,
) -> Result<(), AllocError>
    requires ready { IsReady state.now }
    requires places { HasPlaces state.now.guest.shape track.now }
    requires there { vcpu < state.now.guest.shape.vcpus }
    ensures { OnOk result (waits.new ≡ waits.old ++ passed_by_of state.now track.now (Cpu vcpu reg write)) }
{
    if !asks_first(reg, write) {
        return Ok(());
    }
    let first = state.first_at(vcpu);
    let irqs = &state.guest().irqs;
    for index in 0..irqs.pending_count() {
        let place = irqs.pending_at(index);
        push_if_passed(waits, alloc, state, track, vcpu, first, place)?;
    }
    Ok(())
}

/// The interrupts that wait for an answer after a moment that the guest can have, where these wait before it: those of them that it does not
/// answer, each without the actors that can no longer, and those that it passes by. `AllocError` where memory is refused.
pub fn waits_after(
    alloc: Global,
    state: &State,
    track: &Track,
    moment: &Moment,
    waits: &[Waiting],
) -> Result<ListOf<Waiting>, AllocError>
    requires ready { IsReady state.now }
    requires places { HasPlaces state.now.guest.shape track.now }
    requires can { CanPass state.now.guest.shape moment.now }
    ensures { IfOk result (λ after. after ≡ waits_after_of state.now track.now moment.now waits.now) }
{
    let mut after = still_waiting(alloc, waits, moment)?;
    if let Moment::Happens {
        event: Event::Cpu { vcpu, reg, write },
        ..
    } = *moment
    {
        push_passed(&mut after, alloc, state, track, vcpu, reg, write)?;
    }
    Ok(after)
}
