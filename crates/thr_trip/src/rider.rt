//! What the thread of a PE asks of whom it takes, and what a device's thread does.
ghost use Rattle.std.specs.Prelude.{◌≡◌, ℕ, ◌≤◌, false};
ghost use Rattle.gic_io.specs.Words.{MAX_LIST_REGISTERS};

use crate::visit::Passes;
use gic_io::Gate;
use std::sync::Wait;
use vcpu_shelf::Traveller;

/// How PEs take vCPUs.
#[derive(Clone, Copy, Debug, PartialEq, Eq)]
pub struct Turns {
    /// The list registers of each PE, 1 to 16.
    pub lrs: u32,
    /// The most operations that a vCPU does while it is on a PE, 1 to 1000.
    pub most: u32,
}

/// Who goes from PE to PE.
pub trait Rider: Traveller {
    /// The list registers of the PEs that it goes to.
    ghost registers: { ℕ };

    /// It enters a PE, does some of what it has to do, and leaves the PE.
    fn visit<R: Wait, G: Gate>(&mut self, rt: &R, turns: Turns, passes: &mut Passes<'_, G>)
        requires lrs { 1 ≤ turns.lrs × turns.lrs ≤ MAX_LIST_REGISTERS }
        requires same { turns.lrs ≡ registers }
        requires more { Self.done self.old ≡ false }
        ensures { Self.place self.new ≡ Self.place self.old };
}

/// Who has a thread of its own, and needs no PE.
pub trait Loner: Send + Drop {
    /// It has done nothing yet.
    ghost is_new: { Self → Type 0 };

    /// It has done all that it had to do.
    ghost has_finished: { Self → Self → Type 0 };

    /// It does all that it has to do.
    fn finish<R: Wait>(&mut self, rt: &R)
        requires { is_new self.old }
        ensures { has_finished self.old self.new };
}
