//! Accesses of any frame, each the whole call.
ghost use Rattle.std.specs.Prelude.{IsTrue};
ghost use Rattle.pe_icc.specs.Registers.{is_size};
ghost use Rattle.pe_icc.specs.Calls.{fits as fits_in, has_frame};
ghost use Rattle.pe_icc.specs.Core.{shape_of};
ghost use Rattle.pe_its.specs.PeMem.Call.{CanAccess, MakesAccess};

use pe_icc::{Frame, Port};
use pe_its::{dist_op, its_op, memory_op, redist_op};
use std::sync::Wait;

/// Makes an access of 1, 2, 4 or 8 bytes at a byte offset in a frame, or at an address of the guest's memory: a read, which
/// answers its value, or a write of a value that fits the size (IHI 0069, "The GIC memory-mapped register maps"). It is
/// `dist_op`, `redist_op`, `its_op` or `memory_op`; the guest has the vCPU whose redistributor is named. The vCPU has nothing at
/// its interface and owes nothing, before and after.
pub fn mem_op<P: Port, R: Wait>(
    rt: &R,
    port: &mut P,
    frame: Frame,
    offset: u32,
    size: u32,
    write: Option<u64>,
) -> Option<u64>
    requires can { CanAccess (P.seen port.old) }
    requires there { IsTrue (has_frame (shape_of (P.seen port.old)) frame) }
    requires size { IsTrue (is_size size) }
    requires fits { IsTrue (fits_in size write) }
    ensures { MakesAccess (P.seen port.old) (P.seen port.new) frame offset size write result }
{
    match frame {
        Frame::Dist => dist_op(rt, port, offset, size, write),
        Frame::Redist { vcpu } => redist_op(rt, port, vcpu, offset, size, write),
        Frame::Its => its_op(rt, port, offset, size, write),
        Frame::Ram => memory_op(rt, port, offset, size, write),
    }
}
