//! A machine: its guest, its layout, and the lines of its vCPUs.
ghost use Rattle.std.specs.Prelude.{◌≡◌, ◌<◌, IsTrue, IfOk, Err};
ghost use Rattle.ideal_guest.specs.Calls.{is_good_op};
ghost use Rattle.ideal_guest.specs.Call.{after_op};
ghost use Rattle.gic_vm.specs.Identity.{IsMachineShape};
ghost use Rattle.gic_vm.specs.Layout.{is_layout};
ghost use Rattle.gic_vm.specs.Lines.{lines_of};
ghost use Rattle.gic_vm.specs.State.{shape_of, opening_of};

use crate::done::Refused;
use crate::identity::is_lpi_count;
use crate::layout::{Layout, MachineSpec};
use crate::lines::{DOWN, look};
use gic_line::Lines;
use guest_memory::{Bases, VCPUS};
use ideal_guest::{GuestSpec, IdealGuest, ListOf};
use std::alloc::Global;
use std::marker::Model;

/// An interrupt controller with a distributor, a redistributor and a CPU interface for each vCPU, and an ITS, as a VMM sees it: addresses, system
/// registers, wires, messages, and the interrupt lines of the vCPUs. It is the ideal controller, call by call.
#[derive(Drop)]
pub struct Machine {
    pub(crate) layout: Layout,
    pub(crate) guest: IdealGuest,
    pub(crate) lines: [Lines; VCPUS],
    pub(crate) bases: Bases,
}

impl Model for Machine {
    ghost use Rattle.gic_vm.specs.State.{MachineState};
    ghost use Rattle.gic_vm.specs.Kept.{IsKept};

    ghost Value = { MachineState };

    ghost view = { λ m. record { layout = m.layout; guest = m.guest; bases = m.bases } };

    ghost invariant = { λ m. IsKept m.layout m.guest m.lines };
}

impl Machine {
    /// Opens a machine as it is after reset: nothing is enabled, every wire is down, and no line is asserted.
    ///
    /// `Refused::Shape` exactly where a number is out of range, else `Refused::Layout` exactly where the frames are not placed, and else
    /// `Refused::NoMemory` where memory is refused. This is the only call that asks for memory.
    #[tactic(auto, using(crate::proofs::ResetLemmas::good_reset))]
    pub fn open(alloc: Global, spec: &MachineSpec) -> Result<Machine, Refused>
        ensures opened { IfOk result (λ machine. machine ≡ opening_of spec.now) }
        ensures good { IfOk result (λ machine. IsMachineShape (shape_of spec.now) × IsTrue (is_layout (shape_of spec.now) spec.now.layout)) }
        ensures shape { result ≡ Err Refused.Shape → ¬ IsMachineShape (shape_of spec.now) }
        ensures layout { result ≡ Err Refused.Layout → IsMachineShape (shape_of spec.now) × ¬ IsTrue (is_layout (shape_of spec.now) spec.now.layout) }
        ensures memory { result ≡ Err Refused.NoMemory → IsMachineShape (shape_of spec.now) × IsTrue (is_layout (shape_of spec.now) spec.now.layout) }
        ensures there { ¬ (result ≡ Err Refused.NotThere) }
    {
        let shape = spec.shape();
        if !shape.is_in_range() || !is_lpi_count(shape.lpis) {
            return Err(Refused::Shape);
        }
        if !spec.layout.is_good(&shape) {
            return Err(Refused::Layout);
        }
        let opening = GuestSpec {
            shape,
            on: false,
            presets: ListOf::new(alloc),
        };
        let Ok(guest) = IdealGuest::open(alloc, &opening) else {
            return Err(Refused::NoMemory);
        };
        let mut lines = [DOWN; VCPUS];
        look(&guest, &mut lines);
        Ok(Machine {
            layout: spec.layout,
            guest,
            lines,
            bases: Bases::new(),
        })
    }

    /// The interrupt lines of a vCPU: IRQ is asserted exactly where a read of IAR1 by it would answer the INTID of an interrupt now, FIQ exactly
    /// where a read of IAR0 would. Neither is of a vCPU that the machine does not have.
    #[tactic(auto, using(crate::proofs::KeptLemmas::absent_down))]
    pub fn lines(&self, vcpu: u32) -> Lines
        ensures { result ≡ lines_of self.now.guest vcpu }
    {
        if vcpu < self.guest.shape.vcpus {
            self.lines[vcpu as usize]
        } else {
            DOWN
        }
    }
}
