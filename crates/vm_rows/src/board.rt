//! A board, and calls of it with what they answer.

ghost use Rattle.std.specs.Prelude.{⊤};

use std::process::Abort;
use vm_saved::{Done, Encoding, GuestMemory, Layout, Lines, Machine, MachineSpec};

/// Where the frames of the board are.
pub(crate) const LAYOUT: Layout = Layout {
    dist: 0x0800_0000,
    redist: 0x080A_0000,
    its: 0x0808_0000,
};

/// Two vCPUs, SPIs 32 to 63, LPIs 8192 to 8207.
pub(crate) const BOARD: MachineSpec = MachineSpec {
    vcpus: 2,
    spis: 32,
    espis: 0,
    lpis: 16,
    layout: LAYOUT,
};

/// The vCPUs whose lines a call changed: none, or vCPU 1.
pub(crate) const NONE: u32 = 0;

pub(crate) const ONE: u32 = 0b10;

/// The lines of vCPU 1.
pub(crate) const DOWN: Lines = Lines {
    irq: false,
    fiq: false,
};

pub(crate) const IRQ: Lines = Lines {
    irq: true,
    fiq: false,
};

pub(crate) const FIQ: Lines = Lines {
    irq: false,
    fiq: true,
};

/// A system register by op0, op1, CRn, CRm and op2.
pub(crate) type Name = (u8, u8, u8, u8, u8);

pub(crate) const PMR: Name = (3, 0, 4, 6, 0);

pub(crate) const IAR0: Name = (3, 0, 12, 8, 0);

pub(crate) const EOIR0: Name = (3, 0, 12, 8, 1);

pub(crate) const DIR: Name = (3, 0, 12, 11, 1);

pub(crate) const RPR: Name = (3, 0, 12, 11, 3);

pub(crate) const SGI1R: Name = (3, 0, 12, 11, 5);

pub(crate) const SGI0R: Name = (3, 0, 12, 11, 7);

pub(crate) const IAR1: Name = (3, 0, 12, 12, 0);

pub(crate) const EOIR1: Name = (3, 0, 12, 12, 1);

pub(crate) const HPPIR1: Name = (3, 0, 12, 12, 2);

pub(crate) const CTLR: Name = (3, 0, 12, 12, 4);

pub(crate) const IGRPEN0: Name = (3, 0, 12, 12, 6);

pub(crate) const IGRPEN1: Name = (3, 0, 12, 12, 7);

/// The encoding of a system register.
pub(crate) fn encoding(name: Name) -> Encoding {
    let (op0, op1, crn, crm, op2) = name;
    Encoding {
        op0,
        op1,
        crn,
        crm,
        op2,
    }
}

/// A call of the machine.
#[derive(Clone, Copy, Debug)]
pub(crate) enum Call {
    /// vCPU 1 reads so many bytes at an address.
    Load(u64, u32),
    /// vCPU 1 writes so many bytes at an address.
    Store(u64, u32, u64),
    /// vCPU 1 reads a system register.
    Read(Name),
    /// vCPU 1 writes a system register.
    Write(Name, u64),
    /// The wire of an interrupt of vCPU 1 has a level.
    Wire(u32, bool),
    /// A device sends a message of an SPI.
    Message(u32),
    /// A device sends an MSI, by its DeviceID and an EventID.
    Msi(u32, u32),
    /// The guest stores a doubleword in its memory.
    Memory(u64, u64),
    /// vCPU 1 is reset.
    ResetVcpu,
    /// The machine is reset.
    Reset,
}

/// Where the command queue is in the guest's memory, of one page.
pub(crate) const QUEUE: u64 = 0x4_0000_0000;

/// The bytes of a page.
const PAGE: u64 = 0x1000;
/// The bytes of a command.
const COMMAND: u64 = 32;
/// The first doubleword of SYNC, whose others may be 0.
const SYNC: u64 = 5;

/// The guest's memory: doublewords that were stored, the last one of an address last. The queue has SYNC where nothing was stored; anything else is not there.
#[derive(Drop)]
pub(crate) struct Memory {
    stored: [(u64, u64); 32],
    count: usize,
}

impl Memory {
    /// Nothing was stored.
    pub(crate) fn new() -> Memory {
        Memory {
            stored: [(0, 0); 32],
            count: 0,
        }
    }

    /// Stores a doubleword. There is room for 32.
    fn store(&mut self, address: u64, value: u64) {
        if self.count < 32 {
            self.stored[self.count] = (address, value);
            self.count += 1;
        }
    }
}

impl GuestMemory for Memory {
    ghost may_read = { λ _ _ _. ⊤ };

    fn read(&self, address: u64) -> Option<u64> {
        let mut found = match address.checked_sub(QUEUE) {
            Some(offset) if offset < PAGE => Some(if offset % COMMAND == 0 { SYNC } else { 0 }),
            _ => None,
        };
        for (at, value) in &self.stored {
            if *at == address && *at != 0 {
                found = Some(*value);
            }
        }
        found
    }
}

/// A call, the value that it reads, the vCPUs whose lines it changes, and the lines of vCPU 1 after it.
pub(crate) type Row = (Call, u64, u32, Lines);

/// Makes a call. None where it is refused.
pub(crate) fn make(machine: &mut Machine, memory: &mut Memory, call: Call) -> Option<Done> {
    match call {
        Call::Load(address, size) => machine.mmio(1, address, size, None, memory).ok(),
        Call::Store(address, size, value) => {
            machine.mmio(1, address, size, Some(value), memory).ok()
        }
        Call::Read(name) => machine.sysreg(1, encoding(name), None).ok(),
        Call::Write(name, value) => machine.sysreg(1, encoding(name), Some(value)).ok(),
        Call::Wire(intid, up) => machine.wire(intid, 1, up).ok(),
        Call::Message(spi) => machine.message(spi).ok(),
        Call::Msi(device, event) => machine.msi(device, event).ok(),
        Call::Memory(address, value) => {
            memory.store(address, value);
            Some(Done {
                value: 0,
                changed: NONE,
            })
        }
        Call::ResetVcpu => machine.reset_vcpu(1).ok(),
        Call::Reset => Some(machine.reset()),
    }
}

/// Makes the calls of rows, and compares what they answer.
pub(crate) fn play(rt: &impl Abort, machine: &mut Machine, memory: &mut Memory, rows: &[Row]) {
    for row in rows {
        let (call, value, changed, lines) = *row;
        assert_eq!(rt;
            make(machine, memory, call),
            Some(Done { value, changed }),
            "{call:?}"
        );
        assert_eq!(rt; machine.lines(1), lines, "{call:?}");
    }
}
