//! A vCPU in the course of an access.
ghost use Rattle.std.specs.Prelude.{◌≡◌};

use pe_loop::{Loaded, Shelved};

/// A vCPU on its PE in the course of an access of its CPU interface.
#[derive(Debug, Drop)]
pub(crate) struct Stay {
    pub(crate) vcpu: Loaded,
    /// It scanned without taking anything, or took an interrupt to its interface, to end an interrupt, so that it is to scan
    /// after that.
    pub(crate) owing: bool,
}

/// The vCPU as it is on its PE: guest, number, CPU record, count of its operations, registers and what is held.
pub fn copy_of(vcpu: &Loaded) -> Loaded
    ensures { result ≡ vcpu.now }
{
    Loaded {
        base: Shelved {
            guest: vcpu.base.guest,
            vcpu: vcpu.base.vcpu,
            cpu: vcpu.base.cpu,
            next: vcpu.base.next,
        },
        regs: vcpu.regs,
        held: vcpu.held,
        trapping: vcpu.trapping,
    }
}
