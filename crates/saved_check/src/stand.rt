//! Where the vCPUs stand and how the wires are as a saved run goes on.
ghost use Rattle.std.specs.Prelude.{◌≡◌, ◌++◌, ℕ, IfOk, OnOk, All, length};
ghost use Rattle.saved_guest.specs.IdealGuests.Words.{IsShape};
ghost use Rattle.saved_guest.specs.IdealGuests.Calls.{shapes_of};
ghost use Rattle.saved_guest.specs.ScnSaved.ScnBase.Standing.{IsStanding};
ghost use Rattle.saved_guest.specs.Valid.{IsValidRec};
ghost use Rattle.saved_guest.specs.Standing.{moved_wire as moved_wire_of, wires_of, all_wires, standing_of};
ghost use Rattle.saved_guest.specs.Whole.{AreValidStates, IsValidRun};

use saved_guest::{
    GuestShape, GuestSpec, GuestState, ListOf, MovedWire, Pes, RecState, Saved, Standing,
    interrupt_count, place_of,
};
use std::alloc::{AllocError, Global};

/// The number of no device.
const NO_DEVICE: u32 = u32::MAX;

/// Who has moved the wire of an interrupt, and its level.
fn moved_wire(rec: &RecState) -> Option<MovedWire>
    ensures { result ≡ moved_wire_of rec.now }
{
    match rec.mover {
        Some(device) => Some(MovedWire {
            device,
            up: rec.line,
        }),
        None => rec.line.then_some(MovedWire {
            device: NO_DEVICE,
            up: true,
        }),
    }
}

/// The wires of a guest, by the place of the interrupt. An error where memory for them is refused.
fn wires(
    alloc: Global,
    shape: &GuestShape,
    recs: &[RecState],
) -> Result<ListOf<Option<MovedWire>>, AllocError>
    requires shape { IsShape shape.now }
    requires each { All (IsValidRec shape.now) recs.now }
    ensures { IfOk result (λ wires. wires ≡ wires_of shape.now recs.now) }
{
    let mut wires = ListOf::from(vec![in alloc; None; interrupt_count(shape)]?);
    for rec in recs {
        wires.set(place_of(rec.key, shape), moved_wire(rec));
    }
    Ok(wires)
}

/// Adds wires to those of the guests before.
fn add(more: &[Option<MovedWire>], wires: &mut ListOf<Option<MovedWire>>) -> Result<(), AllocError>
    ensures { OnOk result (wires.new ≡ wires.old ++ more.now) }
{
    for wire in more {
        wires.push(*wire)?;
    }
    Ok(())
}

/// The wires of all guests, guest after guest.
fn all(
    alloc: Global,
    guests: &[GuestSpec],
    states: &[GuestState],
) -> Result<ListOf<Option<MovedWire>>, AllocError>
    requires shapes { All (λ guest. IsShape guest.shape) guests.now }
    requires valid { AreValidStates guests.now states.now }
    ensures { IfOk result (λ wires. wires ≡ all_wires guests.now states.now) }
{
    let mut all = ListOf::new(alloc);
    for (number, guest) in guests.iter().enumerate() {
        let wires = wires(alloc, &guest.shape, states[number].rec.as_slice())?;
        add(wires.as_slice(), &mut all)?;
    }
    Ok(all)
}

/// What each guest has of each kind.
fn shapes(alloc: Global, guests: &[GuestSpec]) -> Result<ListOf<GuestShape>, AllocError>
    ensures { IfOk result (λ shapes. shapes ≡ shapes_of guests.now) }
{
    let mut shapes = ListOf::new(alloc);
    for guest in guests {
        shapes.push(guest.shape)?;
    }
    Ok(shapes)
}

/// The same vCPUs on the same PEs.
fn same(alloc: Global, pes: &Pes) -> Result<Pes, AllocError>
    ensures { IfOk result (λ residents. residents ≡ pes.now) }
{
    let mut residents = Pes::new(alloc);
    for resident in pes.as_slice() {
        residents.push(*resident)?;
    }
    Ok(residents)
}

/// The standing before the first of the steps that are left of a run that can have been saved. An error where memory for it is refused.
pub fn standing(alloc: Global, saved: &Saved) -> Result<Standing, AllocError>
    requires { (rest : ℕ) × IsValidRun rest saved.now }
    ensures value { IfOk result (λ standing. standing ≡ standing_of saved.now) }
    ensures fine { IfOk result IsStanding }
{
    let guests = saved.scenario.guests.as_slice();
    Ok(Standing {
        shapes: shapes(alloc, guests)?,
        pes: same(alloc, &saved.on_pe)?,
        wires: all(alloc, guests, saved.state.as_slice())?,
    })
}
