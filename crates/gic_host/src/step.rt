//! The steps of a run.

use scn_read::{IccReg, ListOf};

/// What is done to a physical interrupt (IHI 0069, GICD_ISPENDR, GICD_ICPENDR, GICD_ISENABLER, GICD_ICENABLER).
#[derive(Clone, Copy, Debug, PartialEq, Eq, Hash)]
pub enum PhysSet {
    /// It is latched pending.
    Pend,
    /// Its latch is cleared.
    Clear,
    Enable,
    /// It is no longer taken; its latch stays.
    Disable,
}

/// One step.
#[derive(Clone, Copy, Debug, PartialEq, Eq, Hash)]
pub enum HostStep {
    /// Something is done to the physical interrupt of this INTID, or its state is shown.
    Phys { phys: u32, set: Option<PhysSet> },
    /// The vCPU that is loaded reads a register of its CPU interface, or writes a value to it.
    Icc { reg: IccReg, write: Option<u64> },
    /// This vCPU is loaded.
    Enter { vcpu: u32 },
    /// The vCPU that is loaded leaves.
    Exit,
    /// The list registers are shown.
    Lrs,
}

/// Steps, in order; their numbers count from 1.
pub type HostStepList = ListOf<HostStep>;

impl HostStep {
    ghost use Rattle.std.specs.Prelude.{◌≡◌};
    ghost use Rattle.gic_host.specs.Text.{is_read as reads};

    /// Whether the step reads a register of the CPU interface.
    pub(crate) fn is_read(&self) -> bool
        ensures { result ≡ reads self.now }
    {
        matches!(self, HostStep::Icc { write: None, .. })
    }
}
