//! The interrupt lines of a vCPU.
ghost use Rattle.std.specs.Prelude.{◌≡◌, List};
ghost use Rattle.floor_registers.specs.Registers.{Candidate, HasBinaryPoints, first_of};

use floor_registers::{Candidate, CpuRec, Group, acknowledged};

/// Which interrupt lines of a vCPU are asserted (IHI 0069, "Interrupt signaling").
#[derive(Clone, Copy, Debug, PartialEq, Eq, Hash)]
pub struct Lines {
    /// IRQ: a read of IAR1 would answer the INTID of an interrupt.
    pub irq: bool,
    /// FIQ: a read of IAR0 would.
    pub fiq: bool,
}

impl Lines {
    ghost use Rattle.gic_line.specs.Lines.{lines_by};

    /// The lines of a vCPU, from the first of the interrupts that are deliverable to it.
    pub fn of(first: Option<Candidate>, cpu: &CpuRec) -> Lines
        requires { HasBinaryPoints cpu.now }
        ensures { (candidates : List Candidate) → first ≡ first_of candidates → result ≡ lines_by cpu.now candidates }
    {
        Lines {
            irq: acknowledged(first, Group::G1, cpu).is_some(),
            fiq: acknowledged(first, Group::G0, cpu).is_some(),
        }
    }
}
