//! What the steps of a scenario are judged by: the guests, where their vCPUs stand, and how their wires are.
ghost use Rattle.std.specs.Prelude.{◌≡◌, ◌*◌, ◌≤◌, ◌<◌, IfOk, IfSome, IsTrue, All, length, map, slice_get, None};
ghost use Rattle.gic_guest.specs.Words.{IsShape, has_interrupt};
ghost use Rattle.scn_base.specs.Standing.{IsStanding, has_vcpu as has_vcpu_in, is_resident as is_resident_on, wire_place as wire_place_in, wire_count as wire_count_of, wire_of, opening_standing, standing_after};
ghost use Rattle.gic_guest.specs.Good.{passes, shapes_of, IsGoodGuest};
ghost use Rattle.scn_base.specs.Good.{is_loaded as is_loaded_in};
ghost use Rattle.scn_base.specs.StepFault.{step_fault};

use crate::pes::{Pes, move_pes, opening_pes};
use crate::step::{Mode, Step};
use gic_guest::{DeviceOp, GuestShape, GuestSpec, Key, ListOf, interrupt_count, place_of};
use std::alloc::{AllocError, Global};

/// A wire that a device has moved.
#[derive(Clone, Copy, Debug, PartialEq, Eq, Hash)]
pub struct MovedWire {
    /// The number of the device in its guest.
    pub device: u32,
    /// The level.
    pub up: bool,
}

/// The wires of all guests, by guest and in a guest by the place of the interrupt; none where no device has moved
/// it.
pub type Wires = ListOf<Option<MovedWire>>;
/// What each guest has of each kind, by its number.
pub type Shapes = ListOf<GuestShape>;

/// What a step is judged by.
#[derive(Debug, Drop)]
pub struct Standing {
    pub shapes: Shapes,
    pub pes: Pes,
    pub wires: Wires,
}

/// What each guest has of each kind.
fn shapes(alloc: Global, guests: &[GuestSpec]) -> Result<Shapes, AllocError>
    ensures { IfOk result (λ shapes. shapes ≡ shapes_of guests.now) }
{
    let mut shapes = Shapes::new(alloc);
    for guest in guests {
        shapes.push(guest.shape)?;
    }
    Ok(shapes)
}

/// How many wires the guests have.
fn wire_count(shapes: &[GuestShape]) -> usize
    requires each { All IsShape shapes.now }
    requires few { length shapes.now ≤ 4 }
    ensures value { result ≡ wire_count_of shapes.now }
    ensures few { result ≤ 8192 * length shapes.now }
{
    let mut count = 0;
    for shape in shapes {
        count += interrupt_count(shape);
    }
    count
}

/// The place of a wire of a guest among those of all guests.
fn wire_place(shapes: &[GuestShape], guest: usize, key: Key) -> usize
    requires each { All IsShape shapes.now }
    requires few { length shapes.now ≤ 4 }
    requires there { IsTrue (passes (λ shape. has_interrupt shape key) (slice_get shapes.now guest)) }
    ensures value { result ≡ wire_place_in shapes.now guest key }
    ensures within { result < wire_count_of shapes.now }
{
    wire_count(&shapes[..guest]) + place_of(key, &shapes[guest])
}

impl Standing {
    /// The standing as a scenario with so many PEs and these guests opens. An error where memory for it is refused.
    pub fn opening(alloc: Global, pes: u32, guests: &[GuestSpec]) -> Result<Standing, AllocError>
        requires guests { All IsGoodGuest guests.now }
        requires few { length guests.now ≤ 4 }
        requires pes { pes ≤ 8 }
        ensures value { IfOk result (λ standing. standing ≡ opening_standing pes (shapes_of guests.now)) }
        ensures fine { IfOk result IsStanding }
    {
        let shapes = shapes(alloc, guests)?;
        let wires = vec![in alloc; None; wire_count(shapes.as_slice())]?;
        Ok(Standing {
            pes: opening_pes(alloc, pes, guests)?,
            shapes,
            wires: Wires::from(wires),
        })
    }

    /// What the guest of a number has of each kind, if there is such a guest.
    pub(crate) fn shape_of(&self, guest: u32) -> Option<GuestShape>
        requires { IsStanding self.now }
        ensures value { result ≡ slice_get self.now.shapes guest }
        ensures shape { IfSome result IsShape }
    {
        self.shapes.get(guest as usize).copied()
    }

    /// Whether the guests have a vCPU.
    pub(crate) fn has_vcpu(&self, guest: u32, vcpu: u32) -> bool
        requires { IsStanding self.now }
        ensures { result ≡ has_vcpu_in self.now.shapes guest vcpu }
    {
        self.shape_of(guest).is_some_and(|shape| vcpu < shape.vcpus)
    }

    /// Whether a vCPU stands on a PE.
    pub(crate) fn is_resident(&self, guest: u32, vcpu: u32) -> bool
        ensures { result ≡ is_resident_on self.now.pes guest vcpu }
    {
        self.pes.iter().any(|resident| resident.is_some_and(|name| name.guest == guest
            && name.vcpu == vcpu))
    }

    /// Whether a vCPU stands on a PE, or is to be put on one.
    pub(crate) fn is_loaded(&self, mode: Mode, guest: u32, vcpu: u32) -> bool
        ensures { result ≡ is_loaded_in mode self.now guest vcpu }
    {
        mode == Mode::Threads || self.is_resident(guest, vcpu)
    }

    /// The wire of an interrupt that a guest has.
    pub(crate) fn wire(&self, guest: u32, key: Key) -> Option<MovedWire>
        requires fine { IsStanding self.now }
        requires there { IsTrue (passes (λ shape. has_interrupt shape key) (slice_get self.now.shapes guest)) }
        ensures { result ≡ wire_of self.now guest key }
    {
        self.wires.as_slice()[wire_place(self.shapes.as_slice(), guest as usize, key)]
    }

    /// Moves the standing by a step that has no fault.
    pub fn follow(&mut self, step: &Step)
        requires fine { IsStanding self.old }
        requires good { (mode : Mode) × (step_fault mode self.old step.now ≡ None) }
        ensures value { self.new ≡ standing_after step.now self.old }
        ensures fine { IsStanding self.new }
    {
        move_pes(step, &mut self.pes);
        if let Step::Device {
            guest,
            device,
            op: DeviceOp::Wire { key, up },
        } = *step
        {
            let place = wire_place(self.shapes.as_slice(), guest as usize, key);
            self.wires.set(place, Some(MovedWire { device, up }));
        }
    }
}
