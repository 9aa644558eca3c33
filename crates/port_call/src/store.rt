//! Stores of plain words.
ghost use Rattle.std.specs.Prelude.{IsTrue};
ghost use Rattle.floor_core.specs.Calls.{has_plain};
ghost use Rattle.floor_core.specs.Core.{shape_of};
ghost use Rattle.port_call.specs.Store.{MayStore, Stores, TriesStore};

use floor_core::{CoreStep, PlainWord, Port, place_of_plain};
use std::sync::Wait;

/// Looks at a plain word, and tries to store another value in its place. Whether it did.
fn try_store<P: Port>(port: &mut P, word: PlainWord, value: u64) -> bool
    requires there { IsTrue (has_plain (shape_of (P.seen port.old)) word) }
    requires may { MayStore (P.seen port.old) word }
    ensures { TriesStore (P.seen port.old) (P.seen port.new) word value result }
{
    let index = place_of_plain(word, &port.shape()) as u32;
    let seen = port.step(CoreStep::RamLook { index });
    port.step(CoreStep::RamPut { index, seen, value }) == seen
}

/// Stores a plain word of the guest, whatever it held: it looks at it, and stores the value if nobody came between, again and
/// again. The number of a fault is stored only by the actor that has the ITS, of a queue that it knows to run.
pub fn put_plain<P: Port, R: Wait>(rt: &R, port: &mut P, word: PlainWord, value: u64)
    requires there { IsTrue (has_plain (shape_of (P.seen port.old)) word) }
    requires may { MayStore (P.seen port.old) word }
    ensures { Stores (P.seen port.old) (P.seen port.new) word value }
{
    for _ in rt.forever() {
        if try_store(port, word, value) {
            return;
        }
    }
    unreachable!()
}
