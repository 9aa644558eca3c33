//! Memory-mapped accesses, each the whole call.
ghost use Rattle.std.specs.Prelude.{◌≡◌, ◌<◌, IsTrue};
ghost use Rattle.its_exec.specs.Words.{Dist, Redist, Ram};
ghost use Rattle.its_exec.specs.Registers.{is_size};
ghost use Rattle.its_exec.specs.Calls.{fits as fits_in, read_answer};
ghost use Rattle.its_exec.specs.Core.{shape_of};
ghost use Rattle.pe_mem.specs.Call.{CanAccess, MakesAccess};

use crate::dist::access_dist;
use crate::memory::access_memory;
use crate::redist::access_redist;
use its_exec::{Port, dist_access, redist_access};
use std::sync::Wait;

/// What an access answers: a read its value, and a write nothing.
fn answered(write: Option<u64>, value: u64) -> Option<u64>
    ensures { result ≡ read_answer write value }
{
    match write {
        None => Some(value),
        Some(_) => None,
    }
}

/// Makes an access of 1, 2, 4 or 8 bytes at a byte offset in the distributor: a read, which answers its value, or a write of a
/// value that fits the size (IHI 0069, "The Distributor register map"). A register that has a part for each interrupt is one
/// access an interrupt, in rising INTID; an interrupt that another vCPU holds is asked for until that vCPU has given it back. A
/// write of GICD_CTLR waits until no other one copies its enables. What the map does not have reads 0 and ignores writes. The
/// vCPU has nothing at its interface and owes nothing, before and after. It takes no memory.
pub fn dist_op<P: Port, R: Wait>(
    rt: &R,
    port: &mut P,
    offset: u32,
    size: u32,
    write: Option<u64>,
) -> Option<u64>
    requires can { CanAccess (P.seen port.old) }
    requires size { IsTrue (is_size size) }
    requires fits { IsTrue (fits_in size write) }
    ensures { MakesAccess (P.seen port.old) (P.seen port.new) Dist offset size write result }
{
    let value = access_dist(rt, port, dist_access(offset, size, write), write);
    answered(write, value)
}

/// Makes an access of 1, 2, 4 or 8 bytes at a byte offset in a vCPU's redistributor, whose SGI frame starts at 0x10000: a read,
/// which answers its value, or a write of a value that fits the size (IHI 0069, "The Redistributor register map"). A register
/// that has a part for each interrupt is one access an interrupt, as in the distributor. The addresses of the tables are stored
/// only while EnableLPIs is 0. As EnableLPIs rises, those LPIs become pending that are for the vCPU and have their bit in its
/// pending table. What the map does not have reads 0 and ignores writes. The vCPU that makes it has nothing at its interface
/// and owes nothing, before and after. It takes no memory.
pub fn redist_op<P: Port, R: Wait>(
    rt: &R,
    port: &mut P,
    of: u32,
    offset: u32,
    size: u32,
    write: Option<u64>,
) -> Option<u64>
    requires can { CanAccess (P.seen port.old) }
    requires there { of < (shape_of (P.seen port.old)).vcpus }
    requires size { IsTrue (is_size size) }
    requires fits { IsTrue (fits_in size write) }
    ensures { MakesAccess (P.seen port.old) (P.seen port.new) (Redist of) offset size write result }
{
    let reference = redist_access(offset, size, write);
    let value = access_redist(rt, port, of, reference, write);
    answered(write, value)
}

/// Makes an access of 1, 2, 4 or 8 bytes of the guest's memory from an address on: a read, which answers its value, or a write
/// of a value that fits the size, which leaves all other bytes as it finds them. Where it is not aligned to its size, or not
/// within the memory, it reads 0 and ignores writes. The vCPU has nothing at its interface and owes nothing, before and after.
/// It takes no memory of the host.
pub fn memory_op<P: Port, R: Wait>(
    rt: &R,
    port: &mut P,
    address: u32,
    size: u32,
    write: Option<u64>,
) -> Option<u64>
    requires can { CanAccess (P.seen port.old) }
    requires size { IsTrue (is_size size) }
    requires fits { IsTrue (fits_in size write) }
    ensures { MakesAccess (P.seen port.old) (P.seen port.new) Ram address size write result }
{
    let value = access_memory(rt, port, address, size, write);
    answered(write, value)
}
