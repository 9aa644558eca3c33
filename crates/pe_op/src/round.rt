//! A memory-mapped access of a vCPU that is on a PE.
ghost use Rattle.std.specs.Prelude.{IsTrue};
ghost use Rattle.pe_icc.specs.Words.{Mem};
ghost use Rattle.pe_icc.specs.Core.{shape_of};
ghost use Rattle.pe_icc.specs.Calls.{is_good_op};
ghost use Rattle.pe_icc.specs.PeLoop.Stay.{IsUp};
ghost use Rattle.pe_op.specs.Operation.{DoesOperation};

use crate::frame::mem_op;
use pe_icc::{Frame, Loaded, Port, copy_of, enter, leave};
use std::sync::Wait;

/// Makes a memory-mapped access: the vCPU leaves its PE before it, and enters it again after it.
pub(crate) fn access_frame<P: Port, R: Wait>(
    rt: &R,
    port: &mut P,
    vcpu: &mut Loaded,
    frame: Frame,
    offset: u32,
    size: u32,
    write: Option<u64>,
) -> Option<u64>
    requires up { IsUp (P.seen port.old) vcpu.old }
    requires good { IsTrue (is_good_op (shape_of (P.seen port.old)) (Mem frame offset size write)) }
    ensures { DoesOperation (P.seen port.old) (P.seen port.new) (Mem frame offset size write) vcpu.old vcpu.new result }
{
    let lrs = vcpu.regs.n;
    let shelved = leave(port, copy_of(vcpu));
    let answer = mem_op(rt, port, frame, offset, size, write);
    *vcpu = enter(port, shelved, lrs);
    answer
}
