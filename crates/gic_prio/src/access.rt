//! What an access of a register does to the record of a CPU interface.
ghost use Rattle.std.specs.Prelude.{◌≡◌, ◌<◌, ◌^◌, List, Some, IfSome, unwrap_or};
ghost use Rattle.gic_prio.specs.Priority.{HasBinaryPoints};
ghost use Rattle.gic_prio.specs.Signal.{intid_written as intid_in};
ghost use Rattle.gic_prio.specs.Access.{deactivated_by, written_by};

use crate::cpu::CpuRec;
use crate::registers::write_plain;
use crate::signal::{dir_deactivates, priority_dropped};
use floor_words::{Field, Group, IccReg};

/// The INTID in a value that is written to EOIR or DIR: bits [23:0].
const WRITTEN_INTID: Field = Field {
    place: 0,
    width: 24,
};

/// The INTID in a value that is written to EOIR or DIR: bits [23:0].
fn intid_written(value: u64) -> u32
    ensures { result ≡ intid_in value }
{
    WRITTEN_INTID.of(value) as u32
}

/// The record after a write of any value to a register. It is as it was where the write is ignored, and for
/// a register that cannot be written or does not stand for the record.
pub fn cpu_written(cpu: &CpuRec, reg: IccReg, value: u64) -> CpuRec
    ensures value { result ≡ unwrap_or (written_by reg value cpu.now) cpu.now }
    ensures points { HasBinaryPoints cpu.now → HasBinaryPoints result }
{
    let written = match reg {
        IccReg::Eoir0 => priority_dropped(cpu, Group::G0, intid_written(value)),
        IccReg::Eoir1 => priority_dropped(cpu, Group::G1, intid_written(value)),
        _ => write_plain(cpu, reg, value),
    };
    written.unwrap_or(*cpu)
}

/// The INTID of the interrupt that a write of a value to a register deactivates, if that one is active by
/// this vCPU. None where the register is none of EOIR0, EOIR1 and DIR, where EOImode leaves it to the
/// other kind, and where the write is ignored.
pub fn intid_deactivated(cpu: &CpuRec, reg: IccReg, value: u64) -> Option<u32>
    ensures { result ≡ deactivated_by reg (Some value) cpu.now }
{
    let id = intid_written(value);
    let deactivates = match reg {
        IccReg::Eoir0 => priority_dropped(cpu, Group::G0, id).is_some() && !cpu.eoimode,
        IccReg::Eoir1 => priority_dropped(cpu, Group::G1, id).is_some() && !cpu.eoimode,
        IccReg::Dir => dir_deactivates(cpu, id),
        _ => false,
    };
    deactivates.then_some(id)
}
