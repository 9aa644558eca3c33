//! The board: its controller, its devices and their wires.
use crate::device::{Timer, Uart};
use gic_vm::{Layout, Machine, MachineSpec};
use std::alloc::Global;

/// Where the frames are.
pub(crate) const LAYOUT: Layout = Layout {
    dist: 0x0800_0000,
    redist: 0x080A_0000,
    its: 0x0808_0000,
};

/// One vCPU, the SPIs 32 to 63, and no LPIs.
const BOARD: MachineSpec = MachineSpec {
    vcpus: 1,
    spis: 32,
    espis: 0,
    lpis: 0,
    layout: LAYOUT,
};

/// The INTID of the timer, a PPI, and that of the UART, an SPI.
pub(crate) const TIMER: u32 = 27;

pub(crate) const UART: u32 = 33;

/// The board.
#[derive(Drop)]
pub(crate) struct Board {
    pub(crate) machine: Machine,
    pub(crate) timer: Timer,
    pub(crate) uart: Uart,
}

impl Board {
    /// The board after reset. None where memory is refused.
    pub(crate) fn open(alloc: Global) -> Option<Board> {
        let machine = Machine::open(alloc, &BOARD).ok()?;
        Some(Board {
            machine,
            timer: Timer { waited: 0 },
            uart: Uart { holds: None },
        })
    }

    /// Time goes on by one, and a byte may come in.
    pub(crate) fn advance(&mut self, byte: Option<u8>) {
        self.timer.waited = self.timer.waited.saturating_add(1);
        if byte.is_some() {
            self.uart.holds = byte;
        }
    }

    /// The devices put their levels on their wires. None where the controller has no such wire.
    pub(crate) fn signal(&mut self) -> Option<()> {
        self.machine.wire(TIMER, 0, self.timer.level()).ok()?;
        self.machine.wire(UART, 0, self.uart.level()).ok()?;
        Some(())
    }
}
