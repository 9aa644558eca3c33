//! Which records an interrupt of a guest can have.
ghost use Rattle.std.specs.Prelude.{◌≡◌};
ghost use Rattle.history_calls.specs.Words.{is_vcpu_or_none as is_vcpu_or_none_of, is_routed_as as is_routed_by, is_of_kind as is_of_kind_of};
ghost use Rattle.history_calls.specs.Exact.{fits_route as fits_route_of, is_record as is_record_of, finds_record as finds_record_of, are_records as are_records_of};

use crate::made::Made;
use floor_calls::{Event, Found, Group, GuestShape, Irq, Key, Route, SGI_COUNT};

/// Priorities are multiples of this.
const PRIORITY_STEP: u8 = 8;

/// Whether this is a vCPU of the guest, or none.
fn is_vcpu_or_none(shape: &GuestShape, vcpu: Option<u32>) -> bool
    ensures { result ≡ is_vcpu_or_none_of shape.now vcpu }
{
    match vcpu {
        Some(vcpu) => vcpu < shape.vcpus,
        None => true,
    }
}

/// Whether a route fits its field.
fn fits_route(shape: &GuestShape, route: Route) -> bool
    ensures { result ≡ fits_route_of shape.now route }
{
    match route {
        Route::Affinity(_) => true,
        Route::Target(target) => is_vcpu_or_none(shape, target),
    }
}

/// Whether an interrupt can be routed so.
fn is_routed_as(shape: &GuestShape, key: Key, route: Route) -> bool
    ensures { result ≡ is_routed_by shape.now key route }
{
    match (key, route) {
        (Key::Private { vcpu, .. }, Route::Target(target)) => target == Some(vcpu),
        (Key::Spi(_), Route::Affinity(_)) => true,
        (Key::Lpi(_), Route::Target(target)) => is_vcpu_or_none(shape, target),
        _ => false,
    }
}

/// Whether a record is of the interrupt's kind.
fn is_of_kind(key: Key, irq: &Irq) -> bool
    ensures { result ≡ is_of_kind_of key irq.now }
{
    match key {
        Key::Private { id, .. } => id >= SGI_COUNT || irq.edge,
        Key::Spi(_) => true,
        Key::Lpi(_) => irq.edge && irq.group == Group::G1 && irq.act_by.is_none(),
    }
}

/// Whether a record is one that the interrupt can have.
fn is_record(shape: &GuestShape, key: Key, irq: &Irq) -> bool
    ensures { result ≡ is_record_of shape.now key irq.now }
{
    irq.prio % PRIORITY_STEP == 0
        && is_vcpu_or_none(shape, irq.act_by)
        && is_vcpu_or_none(shape, irq.holder)
        && fits_route(shape, irq.route)
        && is_routed_as(shape, key, irq.route)
        && is_of_kind(key, irq)
}

/// Whether an event that touches an interrupt found such a record.
fn finds_record(shape: &GuestShape, event: &Event, found: &Found) -> bool
    ensures { result ≡ finds_record_of shape.now event.now found.now }
{
    match (*event, *found) {
        (Event::Touch { key, .. }, Found::Record { irq }) => is_record(shape, key, &irq),
        _ => true,
    }
}

/// Whether each touch of a piece found a record that its interrupt can have, as the touches of a history do.
pub fn are_records(shape: &GuestShape, piece: &[Made]) -> bool
    ensures { result ≡ are_records_of shape.now piece.now }
{
    for made in piece {
        if !finds_record(shape, &made.event, &made.found) {
            return false;
        }
    }
    true
}
