//! Accesses of the guest's memory.
ghost use Rattle.std.specs.Prelude.{IsTrue};
ghost use Rattle.its_exec.specs.Words.{Ram};
ghost use Rattle.its_exec.specs.Registers.{is_size};
ghost use Rattle.its_exec.specs.Calls.{fits as fits_in};
ghost use Rattle.its_exec.specs.PortCall.Rest.{IsAtEase};
ghost use Rattle.pe_mem.specs.Call.{ServesAccess};

use crate::store::{Change, update};
use its_exec::{PlainWord, Port, read_memory, split};
use std::sync::Wait;

/// Makes an access of so many bytes of the guest's memory from an address on: a read, or a write of a value, which leaves the
/// other bytes as it finds them. Outside of the memory, and where it is not aligned, a read answers 0 and a write does nothing.
pub(crate) fn access_memory<P: Port, R: Wait>(
    rt: &R,
    port: &mut P,
    address: u32,
    size: u32,
    write: Option<u64>,
) -> u64
    requires size { IsTrue (is_size size) }
    requires fits { IsTrue (fits_in size write) }
    requires ease { IsAtEase (P.seen port.old).local }
    ensures { ServesAccess (P.seen port.old) (P.seen port.new) Ram address size write result }
{
    let Some(value) = write else {
        return read_memory(port, u64::from(address), size);
    };
    if let Some(part) = split(u64::from(address), size, port.shape().ram) {
        let word = PlainWord::Ram { index: part.index };
        update(rt, port, word, Change::Bits { part, value });
    }
    0
}
