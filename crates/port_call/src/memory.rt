//! Looks at the guest's memory.
ghost use Rattle.std.specs.Prelude.{IsTrue};
ghost use Rattle.floor_core.specs.Registers.{is_size};
ghost use Rattle.port_call.specs.Memory.{ReadsMemory};

use crate::plain::read_plain;
use floor_core::{PlainWord, Port, extract, split};

/// What so many bytes of the guest's memory hold from an address on, by one look at the word that they are in; 0 without a
/// look where they are not aligned or outside of it. There are 1, 2, 4 or 8 bytes.
pub fn read_memory<P: Port>(port: &mut P, address: u64, size: u32) -> u64
    requires { IsTrue (is_size size) }
    ensures { ReadsMemory (P.seen port.old) (P.seen port.new) address size result }
{
    let ram = port.shape().ram;
    match split(address, size, ram) {
        Some(part) => extract(
            read_plain(port, PlainWord::Ram { index: part.index }),
            &part,
        ),
        None => 0,
    }
}
