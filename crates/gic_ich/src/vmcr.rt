//! ICH_VMCR (IHI 0069, ICH_VMCR_EL2): the record of a CPU interface in a register.
ghost use Rattle.std.specs.Prelude.{◌≡◌};
ghost use Rattle.gic_prio.specs.Priority.{HasBinaryPoints};
ghost use Rattle.gic_ich.specs.Vmcr.{vmcr_fields, vfiqen, vmcr_of as packed_vmcr, vmcr_with as replaced_vmcr, other_bits, cpu_of as cpu_in, GivesBack};

use crate::regs::IchRegs;
use gic_lr::{Field, has_bit, put_bit};
use gic_prio::CpuRec;

/// VENG0.
pub(crate) const VENG0: u32 = 0;
/// VENG1.
pub(crate) const VENG1: u32 = 1;
/// VFIQEn, which is always 1.
const VFIQEN: u32 = 3;
/// VCBPR.
const VCBPR: u32 = 4;
/// VEOIM.
const VEOIM: u32 = 9;
/// VBPR1: bits [20:18].
const VBPR1: Field = Field {
    place: 18,
    width: 3,
};
/// VBPR0: bits [23:21].
const VBPR0: Field = Field {
    place: 21,
    width: 3,
};
/// VPMR: bits [31:24].
const VPMR: Field = Field {
    place: 24,
    width: 8,
};
/// Bits [3:2], which hold no field but VFIQEn.
const ABOVE_ENABLES: Field = Field { place: 2, width: 2 };
/// Bits [8:5], which hold no field.
const ABOVE_VCBPR: Field = Field { place: 5, width: 4 };
/// Bits [17:10], which hold no field.
const ABOVE_VEOIM: Field = Field {
    place: 10,
    width: 8,
};

/// The fields of a record in ICH_VMCR.
fn fields_of(cpu: &CpuRec) -> u32
    requires { HasBinaryPoints cpu.now }
    ensures { result ≡ vmcr_fields cpu.now }
{
    let flags = put_bit(cpu.en0, VENG0)
        + put_bit(cpu.en1, VENG1)
        + put_bit(cpu.cbpr, VCBPR)
        + put_bit(cpu.eoimode, VEOIM);
    let points = VBPR1.put(u64::from(cpu.bpr1)) + VBPR0.put(u64::from(cpu.bpr0));
    (flags + points + VPMR.put(u64::from(cpu.pmr))) as u32
}

/// The record of a CPU interface as ICH_VMCR holds it.
pub fn vmcr_of(cpu: &CpuRec) -> u32
    requires { HasBinaryPoints cpu.now }
    ensures value { result ≡ packed_vmcr cpu.now }
    ensures back { GivesBack cpu.now result }
{
    fields_of(cpu) + put_bit(true, VFIQEN) as u32
}

/// ICH_VMCR with the fields of another record, and all other bits as they are.
pub fn vmcr_with(vmcr: u32, cpu: &CpuRec) -> u32
    requires { HasBinaryPoints cpu.now }
    ensures value { result ≡ replaced_vmcr vmcr cpu.now }
    ensures back { GivesBack cpu.now result }
    ensures packed { other_bits vmcr ≡ vfiqen → result ≡ packed_vmcr cpu.now }
{
    let vmcr = u64::from(vmcr);
    let others = ABOVE_ENABLES.in_place(vmcr)
        + ABOVE_VCBPR.in_place(vmcr)
        + ABOVE_VEOIM.in_place(vmcr);
    fields_of(cpu) + others as u32
}

/// The record of the CPU interface that the registers hold, with EnableLPIs as given.
pub fn cpu_of(regs: &IchRegs, lpis: bool) -> CpuRec
    ensures value { result ≡ cpu_in regs.now lpis }
    ensures points { HasBinaryPoints result }
{
    let vmcr = u64::from(regs.vmcr);
    CpuRec {
        pmr: VPMR.of(vmcr) as u8,
        bpr0: VBPR0.of(vmcr) as u8,
        bpr1: VBPR1.of(vmcr) as u8,
        cbpr: has_bit(vmcr, VCBPR),
        eoimode: has_bit(vmcr, VEOIM),
        en0: has_bit(vmcr, VENG0),
        en1: has_bit(vmcr, VENG1),
        lpis,
        ap0: regs.ap0r,
        ap1: regs.ap1r,
    }
}
