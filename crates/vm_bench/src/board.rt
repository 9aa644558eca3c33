//! Machines to make calls of.
ghost use Rattle.std.specs.Prelude.{⊤};

use gic_vm::{Encoding, GuestMemory, Layout, Machine, MachineSpec};
use std::alloc::Global;

/// Where the frames are.
pub(crate) const LAYOUT: Layout = Layout {
    dist: 0x0800_0000,
    redist: 0x080A_0000,
    its: 0x0808_0000,
};

/// What is written as a machine is set up: GICD_CTLR, GICD_IGROUPR1 and GICD_ISENABLER1.
const SETUP: [(u64, u64); 3] = [
    (LAYOUT.dist, 0x2),
    (LAYOUT.dist + 0x84, 0xFFFF_FFFF),
    (LAYOUT.dist + 0x104, 0xFFFF_FFFF),
];

/// The priority mask that passes all priorities.
const ALL_PASS: u64 = 0xF8;

/// A system register.
#[derive(Clone, Copy)]
pub(crate) enum Name {
    Pmr,
    Iar1,
    Eoir1,
    Igrpen1,
}

/// Its encoding.
fn encoding(name: Name) -> Encoding {
    let (crn, crm, op2) = match name {
        Name::Pmr => (4, 6, 0),
        Name::Iar1 => (12, 12, 0),
        Name::Eoir1 => (12, 12, 1),
        Name::Igrpen1 => (12, 12, 7),
    };
    Encoding {
        op0: 3,
        op1: 0,
        crn,
        crm,
        op2,
    }
}

/// No memory.
struct NoRam;

impl GuestMemory for NoRam {
    ghost may_read = { λ _ _ _. ⊤ };

    fn read(&self, _address: u64) -> Option<u64> {
        None
    }
}

/// vCPU 0 reads a system register, or writes it. None where that is undefined.
pub(crate) fn register(machine: &mut Machine, name: Name, write: Option<u64>) -> Option<u64> {
    let done = machine.sysreg(0, encoding(name), write).ok()?;
    Some(done.value)
}

/// vCPU 0 writes so many bytes at an address. None where nothing is there.
pub(crate) fn access<M: GuestMemory>(
    machine: &mut Machine,
    address: u64,
    size: u32,
    value: u64,
    memory: &M,
) -> Option<()> {
    machine.mmio(0, address, size, Some(value), memory).ok()?;
    Some(())
}

/// A machine with so much of each kind, which signals SPIs 32 to 63 to vCPU 0. None where memory is refused.
pub(crate) fn opened(alloc: Global, vcpus: u32, spis: u32, lpis: u32) -> Option<Machine> {
    let spec = MachineSpec {
        vcpus,
        spis,
        espis: 0,
        lpis,
        layout: LAYOUT,
    };
    let mut machine = Machine::open(alloc, &spec).ok()?;
    for (address, value) in &SETUP {
        access(&mut machine, *address, 4, *value, &NoRam)?;
    }
    register(&mut machine, Name::Pmr, Some(ALL_PASS))?;
    register(&mut machine, Name::Igrpen1, Some(1))?;
    Some(machine)
}
