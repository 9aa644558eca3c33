//! Stores of an ITS's register that go by what its plain word holds.
ghost use Rattle.std.specs.Prelude.{◌≡◌, IsTrue, true, false};
ghost use Rattle.pe_mem.specs.Calls.{has_plain};
ghost use Rattle.pe_mem.specs.Core.{shape_of};
ghost use Rattle.pe_mem.specs.PortCall.Plain.{is_event_word};
ghost use Rattle.pe_mem.specs.PortCall.Store.{is_its_ctlr};
ghost use Rattle.pe_its.specs.Change.{changed_by, FitsChange, TriesChange, ChangesWord};

use pe_mem::{
    CoreStep, Half, PlainWord, Port, baser_after, cbaser_after, offset_in, place_of_plain,
    queue_bytes,
};
use std::sync::Wait;

/// How a write changes the plain word of a register of the ITS. A write of a half leaves the other half as it is stored.
#[derive(Clone, Copy, Debug, PartialEq, Eq, Hash)]
pub enum Change {
    /// GITS_CBASER.
    Cbaser { half: Half, value: u64 },
    /// GITS_BASER0 or GITS_BASER1.
    Baser { half: Half, value: u64 },
    /// GITS_CWRITER, where this is GITS_CBASER: it is ignored where its offset is not below the queue's bytes.
    Cwriter { cbaser: u64, half: Half, value: u64 },
}

/// Another word was found than the one that was looked at.
#[derive(Clone, Copy, Debug, PartialEq, Eq, Hash)]
pub struct Late;

impl Change {
    /// The word after the write, unless that is ignored.
    fn applied(self, stored: u64) -> Option<u64>
        requires { FitsChange self }
        ensures { result ≡ changed_by self stored }
    {
        match self {
            Change::Cbaser { half, value } => {
                Some(cbaser_after(false, stored, half.written(stored, value)))
            }
            Change::Baser { half, value } => {
                Some(baser_after(false, stored, half.written(stored, value)))
            }
            Change::Cwriter {
                cbaser,
                half,
                value,
            } => {
                let offset = offset_in(half.written(stored, value));
                if offset < u64::from(queue_bytes(cbaser)) {
                    Some(offset)
                } else {
                    None
                }
            }
        }
    }
}

/// Looks at a plain word, and tries to store it changed, unless the write is ignored. The word that it looked at, where it
/// stored it.
fn try_change<P: Port>(port: &mut P, word: PlainWord, change: Change) -> Result<Option<u64>, Late>
    requires there { IsTrue (has_plain (shape_of (P.seen port.old)) word) }
    requires kept { is_event_word word ≡ true }
    requires other { is_its_ctlr word ≡ false }
    requires fits { FitsChange change }
    ensures { TriesChange (P.seen port.old) (P.seen port.new) word (changed_by change) result }
{
    let index = place_of_plain(word, &port.shape()) as u32;
    let seen = port.step(CoreStep::RamLook { index });
    let Some(value) = change.applied(seen) else {
        return Ok(None);
    };
    if port.step(CoreStep::RamPut { index, seen, value }) == seen {
        Ok(Some(seen))
    } else {
        Err(Late)
    }
}

/// Stores a plain word changed, unless the write is ignored: it looks at the word, and stores what the write makes of it if
/// nobody came between, again and again. The word that it found, where it stored it.
pub(crate) fn change_word<P: Port, R: Wait>(
    rt: &R,
    port: &mut P,
    word: PlainWord,
    change: Change,
) -> Option<u64>
    requires there { IsTrue (has_plain (shape_of (P.seen port.old)) word) }
    requires kept { is_event_word word ≡ true }
    requires other { is_its_ctlr word ≡ false }
    requires fits { FitsChange change }
    ensures { ChangesWord (P.seen port.old) (P.seen port.new) word (changed_by change) result }
{
    for _ in rt.forever() {
        if let Ok(found) = try_change(port, word, change) {
            return found;
        }
    }
    unreachable!()
}
