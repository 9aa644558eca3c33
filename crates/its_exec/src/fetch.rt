//! A command is fetched from the guest's memory.
ghost use Rattle.std.specs.Prelude.{◌≡◌, ◌<◌, ◌≤◌, ◌+◌, ◌-◌, ◌*◌, ◌/◌, ◌%◌, ◌^◌, if◌then◌else◌, IsTrue, Some, None, slice_index};
ghost use Rattle.port_call.specs.Core.{has_all_shut};
ghost use Rattle.port_call.specs.Memory.{ReadsMemory};
ghost use Rattle.its_exec.specs.Config.{HoldsCommand};
ghost use Rattle.its_exec.specs.Known.{KnowsQueue, KnowsDoubleword, Fetches, is_fetched};

use crate::known::KnownQueue;
use port_call::{PlainWord, Port, read_plain, split};

/// The bytes of a doubleword.
const DOUBLEWORD_BYTES: u32 = 8;

/// A command as it was fetched.
#[derive(Clone, Copy, Debug, PartialEq, Eq, Hash)]
pub(crate) struct Fetched {
    /// The address of its first doubleword.
    pub address: u64,
    /// Its four doublewords.
    pub words: [u64; 4],
}

/// Looks at the doubleword of a command with a number from 0; outside of the memory it is 0, without a look.
fn doubleword<P: Port>(port: &mut P, address: u64, number: u32) -> u64
    requires address { address < 2 ^ 53 }
    requires aligned { address % 8 ≡ 0 }
    requires number { number < 4 }
    ensures reads { ReadsMemory (P.seen port.old) (P.seen port.new) (address + 8 * number) 8 result }
    ensures knows { KnowsDoubleword (P.seen port.new) address number result }
{
    let ram = port.shape().ram;
    let first = address + u64::from(DOUBLEWORD_BYTES * number);
    match split(first, DOUBLEWORD_BYTES, ram) {
        Some(part) => read_plain(port, PlainWord::Ram { index: part.index }),
        None => 0,
    }
}

/// Looks at the doublewords of the next command; what is outside of the memory reads 0.
pub(crate) fn fetch<P: Port>(port: &mut P, queue: &KnownQueue) -> Fetched
    requires knows { KnowsQueue (P.seen port.old) queue.now }
    requires lines { IsTrue (has_all_shut (P.seen port.old).local) }
    ensures fetches { Fetches (P.seen port.old) (P.seen port.new) queue.now result }
    ensures holds { HoldsCommand (P.seen port.new) result }
{
    let address = queue.address();
    let words = [
        doubleword(port, address, 0),
        doubleword(port, address, 1),
        doubleword(port, address, 2),
        doubleword(port, address, 3),
    ];
    Fetched { address, words }
}

impl Fetched {
    /// The word of the guest's memory with an index from 0, where it was fetched as a doubleword of the command.
    pub(crate) fn word(&self, index: u32) -> Option<u64>
        ensures { result ≡ (if is_fetched self.now.address index then Some (slice_index self.now.words (index - self.now.address / 8)) else None) }
    {
        let first = self.address / u64::from(DOUBLEWORD_BYTES);
        let number = u64::from(index).checked_sub(first)?;
        self.words.get(number as usize).copied()
    }
}
