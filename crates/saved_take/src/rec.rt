//! The interrupts that are saved: those that are not as the guest opened.
ghost use Rattle.std.specs.Prelude.{◌≡◌, ◌<◌, ◌≤◌, IfOk, IsTrue, length};
ghost use Rattle.saved_guest.specs.IdealGuests.Words.{IsShape, has_interrupt, interrupt_count as count_of};
ghost use Rattle.saved_guest.specs.IdealGuests.Calls.{irq_in};
ghost use Rattle.saved_guest.specs.IdealGuests.Sound.{IsSound};
ghost use Rattle.saved_take.specs.Taken.{said_route as said_route_of, mover_of, rec_of, is_same_rec, rec_now as rec_now_at, rec_opened as rec_opened_at, rec_at, recs_of};

use saved_guest::{
    Group, GuestShape, IdealGuest, Irq, Key, ListOf, MovedWire, RecState, RecStates, Route,
    interrupt_count, key_at, place_of,
};
use std::alloc::{AllocError, Global};

/// The number of no device: a line that it holds up has no mover.
const NO_DEVICE: u32 = u32::MAX;

/// What is said of whom an interrupt is for.
fn said_route(key: Key, route: Route) -> Option<u32>
    ensures { result ≡ said_route_of key route }
{
    match key {
        Key::Private { .. } => None,
        Key::Spi(_) => match route {
            Route::Affinity(affinity) => Some(affinity),
            Route::Target(_) => None,
        },
        Key::Lpi(_) => match route {
            Route::Affinity(_) => None,
            Route::Target(target) => target,
        },
    }
}

/// The device that moved a wire, if one of the guest's did.
fn mover(wire: Option<MovedWire>) -> Option<u32>
    ensures { result ≡ mover_of wire }
{
    let device = wire?.device;
    (device != NO_DEVICE).then_some(device)
}

/// An interrupt, with its wire.
fn rec(key: Key, irq: &Irq, wire: Option<MovedWire>) -> RecState
    ensures { result ≡ rec_of key irq.now wire }
{
    RecState {
        key,
        enabled: irq.enabled,
        group: match irq.group {
            Group::G0 => 0,
            Group::G1 => 1,
        },
        prio: irq.prio,
        edge: irq.edge,
        line: irq.line,
        rise: irq.rise,
        soft: irq.soft,
        act: irq.act_by,
        route: said_route(key, irq.route),
        en0: irq.en0,
        en1: irq.en1,
        mover: mover(wire),
    }
}

/// Whether the two say the same of one interrupt.
fn is_same(a: &RecState, b: &RecState) -> bool
    ensures { result ≡ is_same_rec a.now b.now }
{
    a.enabled == b.enabled
        && a.group == b.group
        && a.prio == b.prio
        && a.edge == b.edge
        && a.line == b.line
        && a.rise == b.rise
        && a.soft == b.soft
        && a.act == b.act
        && a.route == b.route
        && a.en0 == b.en0
        && a.en1 == b.en1
        && a.mover == b.mover
}

/// The record of an interrupt among those with which the guest opened.
fn irq_opened(opened: &[Irq], shape: &GuestShape, key: Key) -> Irq
    requires shape { IsShape shape.now }
    requires each { length opened.now ≡ count_of shape.now }
    requires there { IsTrue (has_interrupt shape.now key) }
    ensures { result ≡ irq_in shape.now opened.now key }
{
    opened[place_of(key, shape)]
}

/// The interrupt at a place as the guest opened with these records.
fn rec_opened(opened: &[Irq], shape: &GuestShape, place: usize) -> RecState
    requires shape { IsShape shape.now }
    requires each { length opened.now ≡ count_of shape.now }
    requires within { place < count_of shape.now }
    ensures { result ≡ rec_opened_at shape.now opened.now place }
{
    let key = key_at(place, shape);
    rec(key, &irq_opened(opened, shape, key), None)
}

/// The interrupt at a place now.
fn rec_now(state: &IdealGuest, wires: &[Option<MovedWire>], place: usize) -> RecState
    requires sound { IsSound state.now }
    requires wires { count_of state.now.shape ≤ length wires.now }
    requires within { place < count_of state.now.shape }
    ensures { result ≡ rec_now_at wires.now state.now place }
{
    let key = key_at(place, &state.shape);
    rec(key, &state.irq(key), wires[place])
}

/// The interrupt at a place, where it is not as the guest opened, or its wire was moved.
fn changed(
    opened: &[Irq],
    wires: &[Option<MovedWire>],
    state: &IdealGuest,
    place: usize,
) -> Option<RecState>
    requires sound { IsSound state.now }
    requires each { length opened.now ≡ count_of state.now.shape }
    requires wires { count_of state.now.shape ≤ length wires.now }
    requires within { place < count_of state.now.shape }
    ensures { result ≡ rec_at opened.now wires.now state.now place }
{
    let now = rec_now(state, wires, place);
    (!is_same(&rec_opened(opened, &state.shape, place), &now)).then_some(now)
}

/// All such interrupts, in key order.
pub(crate) fn recs(
    alloc: Global,
    opened: &[Irq],
    wires: &[Option<MovedWire>],
    state: &IdealGuest,
) -> Result<RecStates, AllocError>
    requires sound { IsSound state.now }
    requires each { length opened.now ≡ count_of state.now.shape }
    requires wires { count_of state.now.shape ≤ length wires.now }
    ensures { IfOk result (λ recs. recs ≡ recs_of opened.now wires.now state.now (count_of state.now.shape)) }
{
    let mut recs = ListOf::new(alloc);
    for place in 0..interrupt_count(&state.shape) {
        if let Some(rec) = changed(opened, wires, state, place) {
            recs.push(rec)?;
        }
    }
    Ok(recs)
}
