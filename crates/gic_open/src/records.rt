//! The interrupts as a guest opens.
ghost use Rattle.std.specs.Prelude.{◌≡◌, ◌<◌, IsTrue, IfOk, length};
ghost use Rattle.gic_guest.specs.Words.{IsShape, has_interrupt, interrupt_count as count_of};
ghost use Rattle.gic_guest.specs.Good.{IsGoodPreset, IsGoodGuest};
ghost use Rattle.gic_open.specs.Opening.{opening_irq as irq_at_opening, with_preset as preset_made, after_preset, opening_irqs as irqs_at_opening, irqs_of, irq_in, RecordsAreApart, OpeningsAreValid};

use gic_guest::{GuestShape, GuestSpec, Key, Preset};
use gic_prio::{Group, Irq, ListOf, Route, interrupt_count, key_at, place_of};
use std::alloc::{AllocError, Global};

/// The record that an interrupt opens with where no preset names it, in a guest that opens on or off.
pub fn opening_irq(on: bool, key: Key) -> Irq
    ensures { result ≡ irq_at_opening on key }
{
    let (group, edge, route) = match key {
        Key::Private { vcpu, .. } => (Group::G0, key.is_sgi(), Route::Target(Some(vcpu))),
        Key::Spi(_) => (Group::G0, false, Route::Affinity(0)),
        Key::Lpi(_) => (Group::G1, true, Route::Target(None)),
    };
    Irq {
        prio: 0,
        enabled: false,
        group,
        edge,
        line: false,
        rise: false,
        soft: false,
        act_by: None,
        holder: None,
        want: false,
        en0: on,
        en1: on,
        route,
    }
}

/// The record that a preset makes of the one that its interrupt opens with.
fn with_preset(preset: &Preset, irq: Irq) -> Irq
    ensures { result ≡ preset_made preset.now irq }
{
    Irq {
        prio: preset.prio,
        enabled: true,
        group: if preset.group == 0 {
            Group::G0
        } else {
            Group::G1
        },
        edge: preset.edge,
        route: match preset.to {
            Some(vcpu) => Route::Affinity(vcpu),
            None => irq.route,
        },
        ..irq
    }
}

/// The records in key order, before any preset.
fn opening_irqs(alloc: Global, on: bool, shape: &GuestShape) -> Result<ListOf<Irq>, AllocError>
    requires { IsShape shape.now }
    ensures { IfOk result (λ irqs. irqs ≡ irqs_at_opening on shape.now) }
{
    let mut irqs = ListOf::new(alloc);
    for place in 0..interrupt_count(shape) {
        irqs.push(opening_irq(on, key_at(place, shape)))?;
    }
    Ok(irqs)
}

/// Opens the interrupt of a preset as the preset says.
fn apply(preset: &Preset, shape: &GuestShape, irqs: &mut ListOf<Irq>)
    requires shape { IsShape shape.now }
    requires good { IsGoodPreset shape.now preset.now }
    requires each { length irqs.old ≡ count_of shape.now }
    ensures value { irqs.new ≡ after_preset shape.now irqs.old preset.now }
    ensures each { length irqs.new ≡ count_of shape.now }
{
    let place = place_of(preset.key(), shape);
    let irq = irqs.as_slice()[place];
    irqs.set(place, with_preset(preset, irq));
}

/// The records of a guest's interrupts as it opens, in key order: after its presets, of which a later one of the same
/// interrupt replaces an earlier one. An error where memory for them is refused.
pub fn irqs(alloc: Global, guest: &GuestSpec) -> Result<ListOf<Irq>, AllocError>
    requires { IsGoodGuest guest.now }
    ensures value { IfOk result (λ irqs. irqs ≡ irqs_of guest.now) }
    ensures each { IfOk result (λ irqs. length irqs ≡ count_of guest.now.shape) }
{
    let shape = guest.shape;
    let mut irqs = opening_irqs(alloc, guest.on, &shape)?;
    for preset in guest.presets.as_slice() {
        apply(preset, &shape, &mut irqs);
    }
    Ok(irqs)
}

/// A law of every list of records: a record that is written is read where it was written, and nowhere else.
pub fn records_are_apart()
    ensures { RecordsAreApart }
{}

/// A law of every good guest: it opens with records that its interrupts can have, held by none.
pub fn openings_are_valid()
    ensures { OpeningsAreValid }
{}
