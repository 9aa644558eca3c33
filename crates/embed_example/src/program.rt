//! What the guest's code does, as the exits that it makes.
use crate::machine::{DOORBELL, Exit, GICD, GICR, GITS};
use port_seq::IccReg;

/// The SPI of the device.
pub const SPI: u32 = 40;
/// The DeviceID and the EventID of the device's messages.
pub const DEVICE_ID: u32 = 8;

pub const EVENT_ID: u32 = 3;
/// The LPI that the guest maps them to.
const LPI: u64 = 8195;
/// The SGI by which vCPU 1 says that it is done.
const SGI: u64 = 5;
/// The registers that the guest accesses; CTLR stands first in each frame.
const GICD_IGROUPR1: u64 = GICD + 0x84;

const GICD_ISENABLER1: u64 = GICD + 0x104;

const GICD_ISACTIVER1: u64 = GICD + 0x304;

const GICD_IPRIORITYR: u64 = GICD + 0x400;

const GICD_ICFGR2: u64 = GICD + 0xC08;

const GICD_IROUTER: u64 = GICD + 0x6000;

const GICR_PROPBASER: u64 = GICR + 0x70;

const GICR_PENDBASER: u64 = GICR + 0x78;

const GICR_IGROUPR0: u64 = GICR + 0x1_0080;

const GICR_ISENABLER0: u64 = GICR + 0x1_0100;

const GICR_IPRIORITYR: u64 = GICR + 0x1_0400;

const GITS_CBASER: u64 = GITS + 0x80;

const GITS_CWRITER: u64 = GITS + 0x88;

const GITS_CREADR: u64 = GITS + 0x90;
/// In the guest's memory: the queue of the ITS, and the configuration bytes of LPIs, which begin at 8192.
const QUEUE: u64 = 0x1000;

const CONFIGURATION: u64 = 0x3000;

const FIRST_LPI: u64 = 8192;

fn store(address: u64, size: u32, value: u64) -> Exit {
    Exit::Mmio {
        address,
        size,
        write: Some(value),
    }
}

fn load(address: u64, size: u32) -> Exit {
    Exit::Mmio {
        address,
        size,
        write: None,
    }
}

fn write(reg: IccReg, value: u64) -> Exit {
    Exit::Register {
        reg,
        write: Some(value),
    }
}

fn read(reg: IccReg) -> Exit {
    Exit::Register { reg, write: None }
}

/// vCPU 0 starts the distributor, its redistributor and the ITS, tells the device to begin, and takes the LPI and then the SGI.
pub fn first() -> [Exit; 38] {
    [
        // Affinity routing and group 1; SPI 40 in group 1, edge-triggered, at priority 0x80, for vCPU 1.
        store(GICD, 4, 0x12),
        load(GICD, 4),
        store(GICD_IGROUPR1, 4, 0x100),
        store(GICD_ICFGR2, 4, 0x2_0000),
        store(GICD_IPRIORITYR + 40, 1, 0x80),
        store(GICD_IROUTER + 8 * 40, 8, 1),
        store(GICD_ISENABLER1, 4, 0x100),
        // SGI 5 of vCPU 0 in group 1, at priority 0xA0.
        store(GICR_IGROUPR0, 4, 0x20),
        store(GICR_IPRIORITYR + SGI, 1, 0xA0),
        store(GICR_ISENABLER0, 4, 0x20),
        // LPIs, of which 8195 is enabled at priority 0x60; none is pending (PTZ).
        store(CONFIGURATION + (LPI - FIRST_LPI), 1, 0x61),
        store(GICR_PROPBASER, 8, CONFIGURATION | 13),
        store(GICR_PENDBASER, 8, 1 << 62),
        store(GICR, 4, 1),
        // The queue of one page, with MAPD of device 8 with 5 bits of EventID, MAPC of collection 1 to vCPU 0, MAPTI of event 3 to
        // the LPI in collection 1, and SYNC of vCPU 0. Doublewords of 0 are there already.
        store(GITS_CBASER, 8, 1 << 63 | QUEUE),
        store(GITS, 4, 1),
        store(QUEUE, 8, 0x0000_0008_0000_0008),
        store(QUEUE + 0x08, 8, 4),
        store(QUEUE + 0x10, 8, 0x8000_0000_0000_2000),
        store(QUEUE + 0x20, 8, 0x09),
        store(QUEUE + 0x30, 8, 0x8000_0000_0000_0001),
        store(QUEUE + 0x40, 8, 0x0000_0008_0000_000A),
        store(QUEUE + 0x48, 8, LPI << 32 | 3),
        store(QUEUE + 0x50, 8, 1),
        store(QUEUE + 0x60, 8, 0x05),
        store(GITS_CWRITER, 8, 0x80),
        load(GITS_CREADR, 8),
        // The CPU interface.
        write(IccReg::Pmr, 0xF0),
        write(IccReg::Igrpen1, 1),
        store(DOORBELL, 4, 1),
        Exit::WaitForInterrupt,
        read(IccReg::Iar1),
        write(IccReg::Eoir1, LPI),
        Exit::WaitForInterrupt,
        read(IccReg::Iar1),
        read(IccReg::Rpr),
        write(IccReg::Eoir1, SGI),
        read(IccReg::Iar1),
    ]
}

/// vCPU 1 takes the SPI, looks at its register in the distributor meanwhile, ends it, and sends the SGI to vCPU 0.
pub fn second() -> [Exit; 7] {
    [
        write(IccReg::Pmr, 0xF0),
        write(IccReg::Igrpen1, 1),
        Exit::WaitForInterrupt,
        read(IccReg::Iar1),
        load(GICD_ISACTIVER1, 4),
        write(IccReg::Eoir1, 40),
        write(IccReg::Sgi1r, SGI << 24 | 1),
    ]
}
