//! Which steps read.
ghost use Rattle.std.specs.Prelude.{◌≡◌};
ghost use Rattle.scn_saved.specs.Read.{is_read as reads};

use scn_base::{GuestOp, Step};

/// Whether a step is a vCPU's and reads: a register of its CPU interface, or memory.
pub fn is_read(step: &Step) -> bool
    ensures { result ≡ reads step.now }
{
    matches!(
        step,
        Step::Vcpu {
            op: GuestOp::Icc { write: None, .. } | GuestOp::Mem { write: None, .. },
            ..
        }
    )
}
