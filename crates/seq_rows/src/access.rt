//! Drawn operations of vCPUs.

use crate::dice::Dice;
use crate::guests::{lpi_id, priority, private_id, shared_id};
use gic_top::{Frame, GuestOp, IccReg};

/// The bits of the used SPIs in a register of INTIDs 32 to 63, and of the used private interrupts in one of INTIDs 0 to 31.
const SHARED_BITS: [u64; 6] = [0x100, 0x200, 0x400, 0x800, 0x300, 0xF00];

const PRIVATE_BITS: [u64; 6] = [0x2, 0x20, 0x10_0000, 0x800_0000, 0x22, 0x0810_0022];

/// The registers with a bit for each interrupt, by their first offsets in the distributor's frame.
const BIT_REGISTERS: [u32; 7] = [0x080, 0x100, 0x180, 0x200, 0x280, 0x300, 0x380];

/// How far the register of INTIDs 32 to 63 is behind that of INTIDs 0 to 31.
const SECOND: u32 = 4;

/// Where the private interrupts' registers begin in a redistributor's frame.
const SGI_BASE: u32 = 0x1_0000;

const IPRIORITYR: u32 = 0x400;

const ICFGR: u32 = 0xC00;

const IROUTER: u32 = 0x6000;

/// Registers that are read now and then.
const VALUES: [IccReg; 11] = [
    IccReg::Hppir0,
    IccReg::Hppir1,
    IccReg::Rpr,
    IccReg::Pmr,
    IccReg::Bpr0,
    IccReg::Bpr1,
    IccReg::Ctlr,
    IccReg::Igrpen0,
    IccReg::Igrpen1,
    IccReg::Ap0r0,
    IccReg::Ap1r0,
];

/// The INTID of an interrupt that is used, or one that there is not.
fn intid(dice: &mut Dice) -> u32 {
    match dice.roll(10) {
        0 | 1 => private_id(dice),
        2 => lpi_id(dice),
        3 => dice.small_of(&[1020, 1023, 63, 64]),
        _ => shared_id(dice),
    }
}

fn reads(reg: IccReg) -> GuestOp {
    GuestOp::Icc { reg, write: None }
}

fn writes(reg: IccReg, value: u64) -> GuestOp {
    GuestOp::Icc {
        reg,
        write: Some(value),
    }
}

/// A read of the CPU interface: mostly an acknowledge.
pub(crate) fn icc_read(dice: &mut Dice) -> GuestOp {
    match dice.roll(8) {
        0 => reads(IccReg::Iar0),
        1 | 2 => reads(VALUES[dice.roll(11) as usize]),
        _ => reads(IccReg::Iar1),
    }
}

/// An end of interrupt or a deactivation.
pub(crate) fn icc_end(dice: &mut Dice) -> GuestOp {
    let id = u64::from(intid(dice));
    match dice.roll(8) {
        0 => writes(IccReg::Eoir0, id),
        1 | 2 => writes(IccReg::Dir, id),
        _ => writes(IccReg::Eoir1, id),
    }
}

/// Another write of the CPU interface.
pub(crate) fn icc_write(dice: &mut Dice) -> GuestOp {
    match dice.roll(10) {
        0 | 1 => writes(IccReg::Pmr, dice.one_of(&[0xF0, 0xF8, 0xA0, 0xA8, 0x20])),
        2 => writes(IccReg::Bpr0, dice.roll(8)),
        3 => writes(IccReg::Bpr1, dice.roll(8)),
        4 | 5 => writes(IccReg::Ctlr, dice.one_of(&[0, 2, 2, 3, 1])),
        6 => writes(IccReg::Igrpen0, dice.roll(2)),
        7 => writes(IccReg::Igrpen1, dice.one_of(&[0, 1, 1, 1])),
        8 => writes(IccReg::Ap1r0, dice.one_of(&[0, 0x10_0000, 0x10])),
        _ => writes(IccReg::Ap0r0, dice.one_of(&[0, 0x10_0000])),
    }
}

/// A write of SGI1R: SGI 1 or 5 to some of vCPUs 0 to 2, or to all but the sender.
pub(crate) fn send_sgi(dice: &mut Dice) -> GuestOp {
    let id: u64 = if dice.is_once_in(2) { 1 } else { 5 };
    let targets = match dice.roll(4) {
        0 => 1 << 40,
        _ => dice.roll(8),
    };
    writes(IccReg::Sgi1r, (id << 24) | targets)
}

/// A store, of a value that is cut to its size.
pub(crate) fn stores(frame: Frame, offset: u32, size: u32, value: u64) -> GuestOp {
    let write = match size {
        1 => value % 0x100,
        2 => value % 0x1_0000,
        4 => value % 0x1_0000_0000,
        _ => value,
    };
    GuestOp::Mem {
        frame,
        offset,
        size,
        write: Some(write),
    }
}

fn loads(frame: Frame, offset: u32, size: u32) -> GuestOp {
    GuestOp::Mem {
        frame,
        offset,
        size,
        write: None,
    }
}

/// The first offset of a register with a bit for each interrupt.
fn bit_register(dice: &mut Dice, base: u32) -> u32 {
    base.wrapping_add(dice.small_of(&BIT_REGISTERS))
}

/// A write of the distributor that changes one SPI.
fn spi_write(dice: &mut Dice) -> GuestOp {
    let id = shared_id(dice);
    let place = IROUTER + 8 * id;
    match dice.roll(6) {
        0 => {
            let value = u64::from(priority(dice));
            stores(Frame::Dist, IPRIORITYR + id, 1, value)
        }
        1 => stores(Frame::Dist, place, 4, dice.one_of(&[0, 1, 2])),
        _ => stores(Frame::Dist, place, 8, dice.one_of(&[0, 1, 1, 2, 2, 7])),
    }
}

/// A write of the distributor that changes some SPIs, or is for all.
fn spis_write(dice: &mut Dice) -> GuestOp {
    let (offset, value) = match dice.roll(12) {
        0 => (
            IPRIORITYR + 40,
            dice.one_of(&[0xA0A0_A0A0, 0x20A0_80A8, 0xA8A8_2020]),
        ),
        1 => (ICFGR + 8, dice.one_of(&[0, 0xAA_0000, 0x2_0000, 0x22_0000])),
        2 => (0, dice.one_of(&[3, 3, 2, 1, 0])),
        3 => (0x40, u64::from(shared_id(dice))),
        4 => (0x48, u64::from(shared_id(dice))),
        _ => (bit_register(dice, SECOND), dice.one_of(&SHARED_BITS)),
    };
    stores(Frame::Dist, offset, 4, value)
}

/// A write of the distributor.
pub(crate) fn gicd_write(dice: &mut Dice) -> GuestOp {
    if dice.is_once_in(3) {
        spi_write(dice)
    } else {
        spis_write(dice)
    }
}

/// A write of a redistributor, over private interrupts.
pub(crate) fn gicr_write(dice: &mut Dice) -> GuestOp {
    let frame = Frame::Redist {
        vcpu: dice.roll_small(3),
    };
    match dice.roll(8) {
        0 => {
            let offset = SGI_BASE + IPRIORITYR + private_id(dice);
            stores(frame, offset, 1, u64::from(priority(dice)))
        }
        1 => {
            let value = dice.one_of(&[0, 0x80_0200, 0x200]);
            stores(frame, SGI_BASE + ICFGR + 4, 4, value)
        }
        2 => stores(frame, 0, 4, 1),
        _ => {
            let offset = bit_register(dice, SGI_BASE);
            stores(frame, offset, 4, dice.one_of(&PRIVATE_BITS))
        }
    }
}

/// A read of the distributor, of a redistributor or of the ITS.
pub(crate) fn register_read(dice: &mut Dice) -> GuestOp {
    let frame = Frame::Redist {
        vcpu: dice.roll_small(3),
    };
    match dice.roll(6) {
        0 | 1 => loads(Frame::Dist, bit_register(dice, SECOND), 4),
        2 => loads(Frame::Dist, dice.small_of(&[0, 4, 0x428, 0xC08]), 4),
        3 => loads(Frame::Dist, IROUTER + 8 * shared_id(dice), 8),
        4 => loads(frame, bit_register(dice, SGI_BASE), 4),
        _ => loads(Frame::Its, dice.small_of(&[0, 0x80, 0x88, 0x90]), 8),
    }
}

/// A read of IAR1.
pub(crate) fn acknowledge() -> GuestOp {
    reads(IccReg::Iar1)
}

/// A write of EOIR1.
pub(crate) fn end_of(id: u32) -> GuestOp {
    writes(IccReg::Eoir1, u64::from(id))
}

/// A write of IROUTER: the SPI is for a vCPU from then on.
pub(crate) fn route(id: u32, vcpu: u32) -> GuestOp {
    let offset = IROUTER.wrapping_add(id.wrapping_mul(8));
    stores(Frame::Dist, offset, 8, u64::from(vcpu))
}
