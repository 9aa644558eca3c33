//! The guest: the accesses that its code would make.
ghost use Rattle.std.specs.Prelude.{⊤};

use crate::board::{Board, LAYOUT, TIMER, UART};
use gic_vm::{Encoding, GuestMemory, Machine};

/// ICC_IGRPEN1_EL1.
const IGRPEN1: Encoding = Encoding {
    op0: 3,
    op1: 0,
    crn: 12,
    crm: 12,
    op2: 7,
};
/// ICC_PMR_EL1.
const PMR: Encoding = Encoding {
    op0: 3,
    op1: 0,
    crn: 4,
    crm: 6,
    op2: 0,
};
/// ICC_IAR1_EL1.
const IAR1: Encoding = Encoding {
    op0: 3,
    op1: 0,
    crn: 12,
    crm: 12,
    op2: 0,
};
/// ICC_EOIR1_EL1.
const EOIR1: Encoding = Encoding {
    op0: 3,
    op1: 0,
    crn: 12,
    crm: 12,
    op2: 1,
};

/// What the guest writes as it boots, each at its address: group 1 is enabled, and both interrupts are of it and enabled.
const BOOT: [(u64, u64); 5] = [
    (LAYOUT.dist, 0x2), // GICD_CTLR: EnableGrp1
    (LAYOUT.dist + 0x84, 0xFFFF_FFFF), // GICD_IGROUPR1
    (LAYOUT.dist + 0x104, 1 << (UART - 32)), // GICD_ISENABLER1
    (LAYOUT.redist + 0x1_0080, 0xFFFF_FFFF), // GICR_IGROUPR0
    (LAYOUT.redist + 0x1_0100, 1 << TIMER), // GICR_ISENABLER0
];

/// The priority mask that passes all priorities.
const ALL_PASS: u64 = 0xF8;

/// What the guest served.
#[derive(Clone, Copy)]
pub(crate) enum Served {
    /// The timer, which it armed again.
    Timer,
    /// The UART, from which it read this byte.
    Byte(u8),
    /// There was nothing to serve.
    Nothing,
}

/// A guest without memory that the controller reads.
struct NoRam;

impl GuestMemory for NoRam {
    ghost may_read = { λ _ _ _. ⊤ };

    fn read(&self, _address: u64) -> Option<u64> {
        None
    }
}

/// Reads a system register, or writes it. None where that is undefined.
fn register(machine: &mut Machine, encoding: Encoding, write: Option<u64>) -> Option<u64> {
    let done = machine.sysreg(0, encoding, write).ok()?;
    Some(done.value)
}

/// The guest boots. None where the controller refuses an access.
pub(crate) fn boot(machine: &mut Machine) -> Option<()> {
    for (address, value) in &BOOT {
        machine.mmio(0, *address, 4, Some(*value), &NoRam).ok()?;
    }
    register(machine, PMR, Some(ALL_PASS))?;
    register(machine, IGRPEN1, Some(1))?;
    Some(())
}

/// Serves the device of an interrupt.
fn serve(board: &mut Board, intid: u64) -> Served {
    if intid == u64::from(TIMER) {
        board.timer.waited = 0;
        return Served::Timer;
    }
    match board.uart.holds {
        Some(byte) if intid == u64::from(UART) => {
            board.uart.holds = None;
            Served::Byte(byte)
        }
        _ => Served::Nothing,
    }
}

/// The guest takes an interrupt: it acknowledges it, serves its device, and ends it. None where the controller refuses an access.
pub(crate) fn take_interrupt(board: &mut Board) -> Option<Served> {
    let intid = register(&mut board.machine, IAR1, None)?;
    let served = serve(board, intid);
    board.signal()?;
    register(&mut board.machine, EOIR1, Some(intid))?;
    Some(served)
}
