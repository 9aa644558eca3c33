//! For which vCPUs the LPIs were in a call that sets EnableLPIs.
ghost use Rattle.std.specs.Prelude.{◌≡◌, ◌+◌, ◌<◌, IfOk, IsTrue, fold, map};
ghost use Rattle.trace_told.specs.Words.{IsShape};
ghost use Rattle.trace_told.specs.Histories.{come_to as come_to_of, is_ahead as is_ahead_of, is_passed as is_passed_of, targets_in};
ghost use Rattle.trace_told.specs.LegalPlay.HistoryPlay.HistoryCalls.Exact.{is_good};
ghost use Rattle.trace_told.specs.LegalPlay.HistoryPlay.HistoryCheck.Ready.{IsReady};
ghost use Rattle.history_turns.specs.Noted.{placing as placing_of, place_by as place_by_of, restarts as restarts_at, seen_at as seen_in, seen_on as seen_on_of, seen_anew as seen_anew_of};
ghost use Rattle.gic_check.specs.Notes.{rising_of as rising_by, of_each, first_seen as first_seen_of, made_seen as made_seen_of, later_seen as later_seen_of};

use history_turns::{Noted, Seen};
use std::alloc::{AllocError, Global};
use trace_told::{
    Event, Frame, GuestOp, GuestShape, Key, ListOf, Made, Operation, State, is_plain, target_of,
};

/// The INTID of the first LPI.
const FIRST_LPI: u32 = 8192;

/// The vCPU whose EnableLPIs an operation sets, if it does.
pub(crate) fn rising_of(shape: &GuestShape, operation: &Operation) -> Option<u32>
    requires { IsTrue (is_good shape.now operation.now) }
    ensures { result ≡ rising_by shape.now operation.now }
{
    match *operation {
        Operation::Access {
            op: GuestOp::Mem {
                frame: Frame::Redist { vcpu },
                ..
            },
        } if !is_plain(shape, operation) => Some(vcpu),
        _ => None,
    }
}

/// The LPI of a pending table to which a call comes with a touch, from this one on, if it has come to one.
fn come_to(place: Option<u32>, key: Key) -> Option<u32>
    ensures { result ≡ come_to_of place key }
{
    let here = place?;
    match key {
        Key::Lpi(id) => Some(id),
        Key::Private { .. } | Key::Spi(_) => Some(here),
    }
}

/// The one to which a call comes with an event.
fn placing(place: Option<u32>, event: &Event) -> Option<u32>
    ensures { result ≡ placing_of place event.now }
{
    match *event {
        Event::Enable { .. } => Some(0),
        Event::Touch { key, .. } => come_to(place, key),
        _ => place,
    }
}

/// The one to which a piece has come.
#[tactic(auto, using(crate::proofs::LoopLemmas::folded))]
fn place_by(piece: &[Made]) -> Option<u32>
    ensures { result ≡ place_by_of piece.now }
{
    let mut place = None;
    for made in piece {
        place = placing(place, &made.event);
    }
    place
}

/// What was noted of an LPI, of these.
fn seen_at(noted: &Noted, number: u32) -> Seen
    ensures { result ≡ seen_in noted.now number }
{
    match noted.targets.get(number as usize) {
        Some(seen) => *seen,
        None => Seen::NOTHING,
    }
}

/// Whether a call that has come to a place comes with a touch to an LPI below another one.
fn is_ahead(place: Option<u32>, key: Key, id: u32) -> bool
    ensures { result ≡ is_ahead_of place key id }
{
    match key {
        Key::Lpi(other) => place.is_some() && other < id,
        Key::Private { .. } | Key::Spi(_) => false,
    }
}

/// Whether an LPI is noted anew from an event on, in a call that has come to a place.
fn restarts(place: Option<u32>, event: &Event, id: u32) -> bool
    ensures { result ≡ restarts_at place event.now id }
{
    match *event {
        Event::Enable { .. } => true,
        Event::Touch { key, .. } => is_ahead(place, key, id),
        _ => false,
    }
}

/// What is noted of an LPI at an event of the call's own, before that.
fn seen_anew(place: Option<u32>, event: &Event, id: u32, seen: Seen) -> Seen
    ensures { result ≡ seen_anew_of place event.now id seen }
{
    if restarts(place, event, id) {
        Seen::NOTHING
    } else {
        seen
    }
}

/// Whether a call that has come to a place has passed an LPI.
fn is_passed(place: Option<u32>, id: u32) -> bool
    ensures { result ≡ is_passed_of place id }
{
    place.is_some_and(|here| id < here)
}

/// What is noted of an LPI after an event, of a call that has come to this place.
fn seen_on(vcpu: u32, place: Option<u32>, id: u32, target: Option<u32>, seen: Seen) -> Seen
    ensures { result ≡ seen_on_of vcpu place id target seen }
{
    if is_passed(place, id) {
        seen
    } else {
        seen.with_target(vcpu, target)
    }
}

/// The vCPU that the LPI of a number is for, if it is for one.
pub(crate) fn target(state: &State, number: u32) -> Option<u32>
    requires ready { IsReady state.now }
    requires there { number < state.now.guest.shape.lpis }
    ensures { result ≡ targets_in state.now (8192 + number) }
{
    target_of(state, Key::Lpi(FIRST_LPI + number))
}

/// Of each LPI, as a call that sets EnableLPIs of a vCPU begins.
pub(crate) fn first_seen(
    alloc: Global,
    state: &State,
    vcpu: u32,
) -> Result<ListOf<Seen>, AllocError>
    requires { IsReady state.now }
    ensures { IfOk result (λ all. all ≡ of_each state.now.guest.shape (first_seen_of state.now vcpu)) }
{
    let mut all = ListOf::new(alloc);
    for number in 0..state.shape().lpis {
        let of = target(state, number);
        let seen = Seen::NOTHING.with_target(vcpu, of);
        all.push(seen)?;
    }
    Ok(all)
}

/// Of each LPI, at an event of the call's own, before that: what the call made so far is given, and what it noted.
pub(crate) fn made_seen(
    alloc: Global,
    shape: &GuestShape,
    piece: &[Made],
    event: &Event,
    noted: &Noted,
) -> Result<ListOf<Seen>, AllocError>
    requires { IsShape shape.now }
    ensures { IfOk result (λ all. all ≡ of_each shape.now (made_seen_of (place_by_of piece.now) event.now noted.now)) }
{
    let place = place_by(piece);
    let mut all = ListOf::new(alloc);
    for number in 0..shape.lpis {
        let before = seen_at(noted, number);
        let seen = seen_anew(place, event, FIRST_LPI + number, before);
        all.push(seen)?;
    }
    Ok(all)
}

/// Of each LPI, after an event of anyone.
pub(crate) fn later_seen(
    alloc: Global,
    state: &State,
    vcpu: u32,
    piece: &[Made],
    noted: &Noted,
) -> Result<ListOf<Seen>, AllocError>
    requires { IsReady state.now }
    ensures { IfOk result (λ all. all ≡ of_each state.now.guest.shape (later_seen_of state.now vcpu (place_by_of piece.now) noted.now)) }
{
    let place = place_by(piece);
    let mut all = ListOf::new(alloc);
    for number in 0..state.shape().lpis {
        let of = target(state, number);
        let before = seen_at(noted, number);
        let seen = seen_on(vcpu, place, FIRST_LPI + number, of, before);
        all.push(seen)?;
    }
    Ok(all)
}
