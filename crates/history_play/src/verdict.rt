//! Whether a moment may come next in a history, and whether that is fresh then.
ghost use Rattle.std.specs.Prelude.{◌≡◌, ℕ, ◌<◌, ◌↔◌, List, is_some, IfSome, IfNone, IsTrue};
ghost use Rattle.history_check.specs.Calls.{CanHappen, Moment};
ghost use Rattle.history_check.specs.Histories.{Course, IsHappening, Ideal, doing_of};
ghost use Rattle.history_check.specs.Ready.{IsReady};
ghost use Rattle.history_check.specs.Track.{doing_in};
ghost use Rattle.history_play.specs.Coming.{is_unknown, IsCause, IsFine, IsEventFresh, IsStale, AreOne, CanFollow};
ghost use Rattle.history_play.specs.Kept.{IsFollowed};

use crate::can::can_happen;
use history_calls::is_same_found;
use history_check::{
    Doing, Event, Found, IccReg, Moment, Operation, QueueChange, State, Track,
    is_fresh_at_acknowledge,
};

/// Why a moment does not come next in a fresh history.
#[derive(Clone, Copy, Debug, PartialEq, Eq, Hash)]
pub enum Cause {
    /// This program does not know it: the end of a command with a fault.
    Unknown,
    /// It is not allowed: a call begins in another, ends or does something outside of one, or an event may not happen, or
    /// does not hand out what is there.
    Forbidden,
    /// A read of IAR or HPPIR overlooks an interrupt.
    Acknowledge,
    /// An interrupt at the interface was changed in a call that ended.
    Interface,
    /// A write of EOIR or DIR names an interrupt that was changed in a call that ended.
    End,
    /// A call ends, and an interrupt that it deactivated and that is pending is still at the interface.
    Deactivation,
}

/// Whether an actor is in a call.
fn is_busy(doings: &[Doing], actor: u32) -> bool
    ensures { result ≡ is_some (doing_in doings.now actor).operation }
{
    match doings.get(actor as usize) {
        Some(doing) => doing.operation.is_some(),
        None => false,
    }
}

/// Whether an actor is in a call, by a track.
fn is_within(track: &Track, actor: u32) -> bool
    ensures { result ≡ is_some (doing_of track.now actor).operation }
{
    is_busy(track.doings.as_slice(), actor)
}

/// Why a call does not begin next.
fn cause_of_begin(state: &State, track: &Track, actor: u32, operation: &Operation) -> Option<Cause>
    requires { IsReady state.now }
    ensures none { (later : List Moment) → IfNone result ((course : Course) → course.ideal ≡ state.now → AreOne course track.now → IsFine course track.now (Moment.Begin actor operation.now) later) }
    ensures some { (later : List Moment) → IfSome result (λ cause. (course : Course) → course.ideal ≡ state.now → AreOne course track.now → IsCause cause course track.now (Moment.Begin actor operation.now) later) }
    ensures follow { IfNone result (CanFollow state.now (Moment.Begin actor operation.now)) }
{
    let _ = operation;
    let shape = state.shape();
    if actor >= shape.vcpus + shape.devices || is_within(track, actor) {
        return Some(Cause::Forbidden);
    }
    None
}

/// Whether a call does not end next.
fn cause_of_end(track: &Track, actor: u32, answer: Option<u64>) -> Option<Cause>
    ensures none { (state : Ideal) (later : List Moment) → IfNone result ((course : Course) → course.ideal ≡ state → AreOne course track.now → IsFine course track.now (Moment.End actor answer) later) }
    ensures some { (state : Ideal) (later : List Moment) → IfSome result (λ cause. (course : Course) → course.ideal ≡ state → AreOne course track.now → IsCause cause course track.now (Moment.End actor answer) later) }
    ensures follow { (state : Ideal) → IsFollowed state.guest.shape track.now → IfNone result (CanFollow state (Moment.End actor answer)) }
{
    let _ = answer;
    if !is_within(track, actor) {
        return Some(Cause::Forbidden);
    }
    if !track.has_left_all(actor) {
        return Some(Cause::Deactivation);
    }
    None
}

/// Whether an event may happen, in a call of its actor's, and hands out what is there.
fn may_happen(state: &State, track: &Track, actor: u32, event: &Event, found: &Found) -> bool
    requires ready { IsReady state.now }
    ensures happening { (course : Course) → course.ideal ≡ state.now → AreOne course track.now → (IsTrue result ↔ IsHappening course actor event.now found.now) }
    ensures can { IsTrue result → CanHappen state.now.guest.shape event.now }
    ensures there { IsTrue result → IsTrue (is_some (doing_of track.now actor).operation) }
{
    if !is_within(track, actor) || !can_happen(state.shape(), event) {
        return false;
    }
    let there = state.handed_out(event);
    state.is_allowed(actor, event) && is_same_found(found, &there)
}

/// Whether an event is the end of a command that has a fault.
fn is_faulty(state: &State, event: &Event) -> bool
    requires ready { IsReady state.now }
    ensures { (actor : ℕ) (found : Found) → result ≡ is_unknown state.now (Moment.Happens actor event.now found) }
{
    match *event {
        Event::Queue {
            change: QueueChange::Done { words },
            ..
        } => state
            .guest()
            .tables
            .fault_number(words, state.shape())
            .is_some(),
        _ => false,
    }
}

/// Why an access of a CPU interface register is not fresh, where these moments come after it.
fn staleness_of_access(
    state: &State,
    track: &Track,
    vcpu: u32,
    reg: IccReg,
    write: Option<u64>,
    later: &[Moment],
) -> Option<Cause>
    requires ready { IsReady state.now }
    requires followed { IsFollowed state.now.guest.shape track.now }
    requires there { vcpu < state.now.guest.shape.vcpus }
    ensures none { IfNone result (IsEventFresh state.now track.now (Event.Cpu vcpu reg write) later.now) }
    ensures some { IfSome result (λ cause. IsStale cause state.now track.now (Event.Cpu vcpu reg write) later.now) }
{
    if !is_fresh_at_acknowledge(track, state, vcpu, reg, write, later) {
        return Some(Cause::Acknowledge);
    }
    if !track.is_fresh_at_interface(state, vcpu, reg, write) {
        return Some(Cause::Interface);
    }
    if !track.is_fresh_at_end(state, vcpu, reg, write) {
        return Some(Cause::End);
    }
    None
}

/// Why an event is not fresh, where these moments come after it.
fn staleness(state: &State, track: &Track, event: &Event, later: &[Moment]) -> Option<Cause>
    requires ready { IsReady state.now }
    requires followed { IsFollowed state.now.guest.shape track.now }
    requires can { CanHappen state.now.guest.shape event.now }
    ensures none { IfNone result (IsEventFresh state.now track.now event.now later.now) }
    ensures some { IfSome result (λ cause. IsStale cause state.now track.now event.now later.now) }
{
    match *event {
        Event::Cpu { vcpu, reg, write } => {
            staleness_of_access(state, track, vcpu, reg, write, later)
        }
        _ => None,
    }
}

/// Why an event does not happen next, where these moments come after it.
fn cause_of_event(
    state: &State,
    track: &Track,
    actor: u32,
    event: &Event,
    found: &Found,
    later: &[Moment],
) -> Option<Cause>
    requires ready { IsReady state.now }
    requires followed { IsFollowed state.now.guest.shape track.now }
    ensures none { IfNone result ((course : Course) → course.ideal ≡ state.now → AreOne course track.now → IsFine course track.now (Moment.Happens actor event.now found.now) later.now) }
    ensures some { IfSome result (λ cause. (course : Course) → course.ideal ≡ state.now → AreOne course track.now → IsCause cause course track.now (Moment.Happens actor event.now found.now) later.now) }
    ensures follow { IfNone result (CanFollow state.now (Moment.Happens actor event.now found.now)) }
{
    if !may_happen(state, track, actor, event, found) {
        return Some(Cause::Forbidden);
    }
    if is_faulty(state, event) {
        return Some(Cause::Unknown);
    }
    staleness(state, track, event, later)
}

/// Why a moment does not come next in a fresh history, where these come after it; none where it does. Of the end of a call it
/// asks that the actor is in one, and not what an ended call has to be.
pub fn judge(state: &State, track: &Track, moment: &Moment, later: &[Moment]) -> Option<Cause>
    requires ready { IsReady state.now }
    requires followed { IsFollowed state.now.guest.shape track.now }
    ensures none { IfNone result ((course : Course) → course.ideal ≡ state.now → AreOne course track.now → IsFine course track.now moment.now later.now) }
    ensures some { IfSome result (λ cause. (course : Course) → course.ideal ≡ state.now → AreOne course track.now → IsCause cause course track.now moment.now later.now) }
    ensures follow { IfNone result (CanFollow state.now moment.now) }
{
    match moment {
        Moment::Begin { actor, operation } => cause_of_begin(state, track, *actor, operation),
        Moment::Happens {
            actor,
            event,
            found,
        } => cause_of_event(state, track, *actor, event, found, later),
        Moment::End { actor, answer } => cause_of_end(track, *actor, *answer),
    }
}
