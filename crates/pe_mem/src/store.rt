//! Stores of plain words that go by what the word holds.
ghost use Rattle.std.specs.Prelude.{◌≡◌, IsTrue, true, false};
ghost use Rattle.its_exec.specs.Calls.{has_plain};
ghost use Rattle.its_exec.specs.Core.{shape_of};
ghost use Rattle.its_exec.specs.PortCall.Plain.{is_event_word};
ghost use Rattle.its_exec.specs.PortCall.Store.{is_its_ctlr};
ghost use Rattle.pe_mem.specs.Store.{changed_by, FitsChange, TriesUpdate, Updates};

use its_exec::{
    CoreStep, Half, MemoryPart as Part, PlainWord, Port, insert, pendbaser_after, place_of_plain,
    propbaser_after,
};
use std::sync::Wait;

/// How a write changes a plain word.
#[derive(Clone, Copy, Debug, PartialEq, Eq, Hash)]
pub enum Change {
    /// Bits of a word of the guest's memory: the others stay.
    Bits { part: Part, value: u64 },
    /// GICR_PROPBASER, or a half of it: the other half stays.
    Propbaser { half: Half, value: u64 },
    /// GICR_PENDBASER, or a half of it: the other half stays.
    Pendbaser { half: Half, value: u64 },
}

impl Change {
    /// The word after the write.
    fn applied(self, stored: u64) -> u64
        requires { FitsChange self }
        ensures { result ≡ changed_by self stored }
    {
        match self {
            Change::Bits { part, value } => insert(stored, &part, value),
            Change::Propbaser { half, value } => {
                propbaser_after(false, stored, half.written(stored, value))
            }
            Change::Pendbaser { half, value } => {
                pendbaser_after(false, stored, half.written(stored, value))
            }
        }
    }
}

/// Looks at a plain word, and tries to store it changed. Whether it did.
fn try_update<P: Port>(port: &mut P, word: PlainWord, change: Change) -> bool
    requires there { IsTrue (has_plain (shape_of (P.seen port.old)) word) }
    requires kept { is_event_word word ≡ true }
    requires other { is_its_ctlr word ≡ false }
    requires fits { FitsChange change }
    ensures { TriesUpdate (P.seen port.old) (P.seen port.new) word (changed_by change) result }
{
    let index = place_of_plain(word, &port.shape()) as u32;
    let seen = port.step(CoreStep::RamLook { index });
    let value = change.applied(seen);
    port.step(CoreStep::RamPut { index, seen, value }) == seen
}

/// Stores a plain word of the guest changed: it looks at the word, and stores what the write makes of it if nobody came
/// between, again and again. It is neither the word that keeps a fault nor GITS_CTLR.
pub(crate) fn update<P: Port, R: Wait>(rt: &R, port: &mut P, word: PlainWord, change: Change)
    requires there { IsTrue (has_plain (shape_of (P.seen port.old)) word) }
    requires kept { is_event_word word ≡ true }
    requires other { is_its_ctlr word ≡ false }
    requires fits { FitsChange change }
    ensures { Updates (P.seen port.old) (P.seen port.new) word (changed_by change) }
{
    for _ in rt.forever() {
        if try_update(port, word, change) {
            return;
        }
    }
    unreachable!()
}
