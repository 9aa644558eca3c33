//! The records of a guest's interrupts.
ghost use Rattle.std.specs.Prelude.{◌≡◌, ◌↔◌, ℕ, IsTrue, IfOk, All, length, is_some};
ghost use Rattle.saved_guest.specs.IdealGuests.Words.{Key as Interrupt, IsShape, has_interrupt, interrupt_count, Lpi, target_in as target_among};
ghost use Rattle.saved_guest.specs.IdealGuests.Registers.{has_target};
ghost use Rattle.saved_guest.specs.IdealGuests.Calls.{IsGoodGuest, irq_in};
ghost use Rattle.saved_guest.specs.IdealGuests.CanOpen.{copy_in};
ghost use Rattle.saved_guest.specs.State.{route_of, record_of, irqs_with};
ghost use Rattle.saved_guest.specs.Valid.{IsValidRec};

use saved_guest::{
    Enables, Group, GuestShape, GuestSpec, Irq, ItsTables, Key, ListOf, RecState, Route, irqs,
    place_of, target_in,
};
use std::alloc::{AllocError, Global};

/// The INTID of the first LPI.
const FIRST_LPI: u32 = 8192;

/// Whom an interrupt is for.
fn route(key: Key, route: Option<u32>) -> Route
    ensures { result ≡ route_of key route }
{
    match key {
        Key::Private { vcpu, .. } => Route::Target(Some(vcpu)),
        Key::Spi(_) => Route::Affinity(route.unwrap_or(0)),
        Key::Lpi(_) => Route::Target(route),
    }
}

/// The record of an interrupt.
fn record_told(rec: &RecState) -> Irq
    ensures { result ≡ record_of rec.now }
{
    Irq {
        prio: rec.prio,
        enabled: rec.enabled,
        group: if rec.group == 0 { Group::G0 } else { Group::G1 },
        edge: rec.edge,
        line: rec.line,
        rise: rec.rise,
        soft: rec.soft,
        act_by: rec.act,
        holder: None,
        want: false,
        en0: rec.en0,
        en1: rec.en1,
        route: route(rec.key, rec.route),
    }
}

/// The records in key order: as the guest opens, but for those that are told. An error where memory for them is refused.
pub(crate) fn records(
    alloc: Global,
    guest: &GuestSpec,
    recs: &[RecState],
) -> Result<ListOf<Irq>, AllocError>
    requires good { IsGoodGuest guest.now }
    requires each { All (IsValidRec guest.now.shape) recs.now }
    ensures value { IfOk result (λ irqs. irqs ≡ irqs_with guest.now recs.now) }
    ensures each { IfOk result (λ irqs. length irqs ≡ interrupt_count guest.now.shape) }
{
    let mut irqs = irqs(alloc, guest)?;
    for rec in recs {
        irqs.set(place_of(rec.key, &guest.shape), record_told(rec));
    }
    Ok(irqs)
}

/// Whether each record has these copies of the group enables of GICD_CTLR.
fn are_copies(irqs: &[Irq], enables: Enables) -> bool
    ensures { IsTrue result ↔ All (λ irq. copy_in irq ≡ enables) irqs.now }
{
    irqs.iter().all(|irq| irq.en0 == enables.group0 && irq.en1 == enables.group1)
}

/// The same of the record of each interrupt of a guest.
pub(crate) fn have_copies(irqs: &[Irq], shape: &GuestShape, enables: Enables) -> bool
    requires shape { IsShape shape.now }
    requires each { length irqs.now ≡ interrupt_count shape.now }
    ensures { IsTrue result ↔ ((key : Interrupt) → IsTrue (has_interrupt shape.now key) → copy_in (irq_in shape.now irqs.now key) ≡ enables) }
{
    are_copies(irqs, enables)
}

/// Whether an LPI has a target exactly where the maps give it one.
fn has_its_target(irqs: &[Irq], shape: &GuestShape, tables: &ItsTables, id: u32) -> bool
    requires shape { IsShape shape.now }
    requires each { length irqs.now ≡ interrupt_count shape.now }
    requires there { IsTrue (has_interrupt shape.now (Lpi id)) }
    ensures { IsTrue result ↔ (is_some (target_among (irq_in shape.now irqs.now (Lpi id)).route shape.now) ≡ has_target tables.now id) }
{
    let route = irqs[place_of(Key::Lpi(id), shape)].route;
    target_in(route, shape).is_some() == tables.has_target(id)
}

/// The same of each LPI of the guest.
pub(crate) fn have_their_targets(irqs: &[Irq], shape: &GuestShape, tables: &ItsTables) -> bool
    requires shape { IsShape shape.now }
    requires each { length irqs.now ≡ interrupt_count shape.now }
    ensures { IsTrue result ↔ ((id : ℕ) → IsTrue (has_interrupt shape.now (Lpi id)) → is_some (target_among (irq_in shape.now irqs.now (Lpi id)).route shape.now) ≡ has_target tables.now id) }
{
    for id in FIRST_LPI..FIRST_LPI + shape.lpis {
        if !has_its_target(irqs, shape, tables, id) {
            return false;
        }
    }
    true
}
