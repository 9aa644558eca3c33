//! One operation of a vCPU that is on a PE.
ghost use Rattle.std.specs.Prelude.{IsTrue};
ghost use Rattle.pe_icc.specs.Core.{shape_of};
ghost use Rattle.pe_icc.specs.Calls.{is_good_op};
ghost use Rattle.pe_icc.specs.PeLoop.Stay.{IsUp};
ghost use Rattle.pe_op.specs.Operation.{DoesOperation};

use crate::round::access_frame;
use pe_icc::{GuestOp, Loaded, Port, icc_op};
use std::sync::Wait;

/// Does one operation of a vCPU that is on a PE: an access of a register of its CPU interface, or one of 1, 2, 4 or 8 bytes at a
/// byte offset in the distributor, in the redistributor of a vCPU of the guest or in the ITS, or at an address of the guest's
/// memory (IHI 0069, "AArch64 System register descriptions" and "The GIC memory-mapped register maps"). The register can be read
/// or written so; the access lies in its frame, the value that is written fits its size, and one of memory is aligned to it. The
/// answer is Some exactly for a read. For a memory-mapped access the vCPU first leaves its PE, which takes back all that it
/// holds, and afterwards enters it again, with as many list registers. Guest, vCPU and count of operations stay. It asks for no
/// memory. It waits while another actor has the ITS, GICD_CTLR's mark or an interrupt that it accesses, and where kicks keep coming.
pub fn guest_op<P: Port, R: Wait>(
    rt: &R,
    port: &mut P,
    vcpu: &mut Loaded,
    op: &GuestOp,
) -> Option<u64>
    requires up { IsUp (P.seen port.old) vcpu.old }
    requires good { IsTrue (is_good_op (shape_of (P.seen port.old)) op.now) }
    ensures { DoesOperation (P.seen port.old) (P.seen port.new) op.now vcpu.old vcpu.new result }
{
    match *op {
        GuestOp::Icc { reg, write } => icc_op(rt, port, vcpu, reg, write),
        GuestOp::Mem {
            frame,
            offset,
            size,
            write,
        } => access_frame(rt, port, vcpu, frame, offset, size, write),
    }
}
