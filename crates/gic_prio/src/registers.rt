//! The registers that stand for the record of a CPU interface alone.
ghost use Rattle.std.specs.Prelude.{◌≡◌, IsTrue, IsSome, IfSome};
ghost use Rattle.gic_prio.specs.Priority.{HasBinaryPoints};
ghost use Rattle.floor_words.specs.Words.{is_readable, is_writable};
ghost use Rattle.gic_prio.specs.Registers.{bpr1_of, ctlr_of, plain_read, pmr_written, binary_point_written as binary_point_after, plain_write};

use crate::cpu::CpuRec;
use crate::priority::running;
use floor_words::{Field, IccReg, PRIORITY_STEP, has_bit, put_bit};

/// The priority in PMR: bits [7:0].
const PRIORITY: Field = Field { place: 0, width: 8 };
/// The binary point in BPR0 and BPR1: bits [2:0].
const BINARY_POINT: Field = Field { place: 0, width: 3 };
/// The greatest binary point.
const LAST_BINARY_POINT: u8 = 7;
/// The least binary point of group 0, where five bits of a priority are implemented.
const LEAST_BPR0: u8 = 2;
/// The least binary point of group 1.
const LEAST_BPR1: u8 = 3;
/// The bit of ICC_CTLR.CBPR.
const CTLR_CBPR: u32 = 0;
/// The bit of ICC_CTLR.EOImode.
const CTLR_EOIMODE: u32 = 1;
/// ICC_CTLR.PRIbits.
const CTLR_PRIBITS: Field = Field { place: 8, width: 3 };
/// ICC_CTLR.PRIbits: one less than the number of priority bits.
const PRIBITS: u64 = 4;
/// The bit of ICC_CTLR.RSS: SGIs have a range selector.
const CTLR_RSS: u32 = 18;
/// The bit of ICC_CTLR.ExtRange: there are extended SPIs.
const CTLR_EXTRANGE: u32 = 19;
/// The bit of ICC_IGRPEN0.Enable and of ICC_IGRPEN1.Enable.
const IGRPEN_ENABLE: u32 = 0;
/// ICC_SRE: SRE, DFB and DIB, which say that there are system registers alone and no bypass.
const SRE_VALUE: u64 = 7;

fn read_bpr1(cpu: &CpuRec) -> u8
    ensures { result ≡ bpr1_of cpu.now }
{
    if cpu.cbpr {
        cpu.bpr0.saturating_add(1).min(LAST_BINARY_POINT)
    } else {
        cpu.bpr1
    }
}

fn read_ctlr(cpu: &CpuRec) -> u64
    ensures { result ≡ ctlr_of cpu.now }
{
    put_bit(cpu.cbpr, CTLR_CBPR)
        + put_bit(cpu.eoimode, CTLR_EOIMODE)
        + CTLR_PRIBITS.put(PRIBITS)
        + put_bit(true, CTLR_RSS)
        + put_bit(true, CTLR_EXTRANGE)
}

/// Reads one of the registers that stand for the record alone: RPR, PMR, BPR0, BPR1, CTLR, IGRPEN0,
/// IGRPEN1, AP0R0, AP1R0 and SRE. None for every other one.
pub fn read_plain(cpu: &CpuRec, reg: IccReg) -> Option<u64>
    ensures value { result ≡ plain_read reg cpu.now }
    ensures readable { IsSome result → IsTrue (is_readable reg) }
{
    match reg {
        IccReg::Rpr => Some(u64::from(running(cpu))),
        IccReg::Pmr => Some(u64::from(cpu.pmr)),
        IccReg::Bpr0 => Some(u64::from(cpu.bpr0)),
        IccReg::Bpr1 => Some(u64::from(read_bpr1(cpu))),
        IccReg::Ctlr => Some(read_ctlr(cpu)),
        IccReg::Igrpen0 => Some(u64::from(cpu.en0)),
        IccReg::Igrpen1 => Some(u64::from(cpu.en1)),
        IccReg::Ap0r0 => Some(u64::from(cpu.ap0)),
        IccReg::Ap1r0 => Some(u64::from(cpu.ap1)),
        IccReg::Sre => Some(SRE_VALUE),
        IccReg::Iar0
        | IccReg::Iar1
        | IccReg::Hppir0
        | IccReg::Hppir1
        | IccReg::Eoir0
        | IccReg::Eoir1
        | IccReg::Dir
        | IccReg::Sgi1r => None,
    }
}

fn written_pmr(value: u64) -> u8
    ensures { result ≡ pmr_written value }
{
    PRIORITY.of(value) as u8 / PRIORITY_STEP * PRIORITY_STEP
}

fn written_binary_point(least: u8, value: u64) -> u8
    ensures { result ≡ binary_point_after least value }
{
    least.max(BINARY_POINT.of(value) as u8)
}

/// The record after a write of any value to one of the registers that stand for the record alone: PMR,
/// BPR0, BPR1, CTLR, IGRPEN0, IGRPEN1, AP0R0, AP1R0 and SRE. None for every other one.
pub fn write_plain(cpu: &CpuRec, reg: IccReg, value: u64) -> Option<CpuRec>
    ensures value { result ≡ plain_write reg value cpu.now }
    ensures writable { IsSome result → IsTrue (is_writable reg) }
    ensures points { HasBinaryPoints cpu.now → IfSome result HasBinaryPoints }
{
    match reg {
        IccReg::Pmr => Some(CpuRec {
            pmr: written_pmr(value),
            ..*cpu
        }),
        IccReg::Bpr0 => Some(CpuRec {
            bpr0: written_binary_point(LEAST_BPR0, value),
            ..*cpu
        }),
        IccReg::Bpr1 if cpu.cbpr => Some(*cpu),
        IccReg::Bpr1 => Some(CpuRec {
            bpr1: written_binary_point(LEAST_BPR1, value),
            ..*cpu
        }),
        IccReg::Ctlr => Some(CpuRec {
            cbpr: has_bit(value, CTLR_CBPR),
            eoimode: has_bit(value, CTLR_EOIMODE),
            ..*cpu
        }),
        IccReg::Igrpen0 => Some(CpuRec {
            en0: has_bit(value, IGRPEN_ENABLE),
            ..*cpu
        }),
        IccReg::Igrpen1 => Some(CpuRec {
            en1: has_bit(value, IGRPEN_ENABLE),
            ..*cpu
        }),
        IccReg::Ap0r0 | IccReg::Ap1r0 | IccReg::Sre => Some(*cpu),
        IccReg::Iar0
        | IccReg::Iar1
        | IccReg::Hppir0
        | IccReg::Hppir1
        | IccReg::Eoir0
        | IccReg::Eoir1
        | IccReg::Dir
        | IccReg::Rpr
        | IccReg::Sgi1r => None,
    }
}
