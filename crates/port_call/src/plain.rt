//! Looks at plain words.
ghost use Rattle.std.specs.Prelude.{IsTrue};
ghost use Rattle.floor_core.specs.Calls.{has_plain};
ghost use Rattle.floor_core.specs.Core.{shape_of};
ghost use Rattle.port_call.specs.Plain.{is_event_word, ReadsPlain};

use floor_core::{CoreStep, PlainWord, Port, place_of_plain};

/// What a plain word of the guest holds: one of its memory or of a register, and not the one that keeps a fault.
pub fn read_plain<P: Port>(port: &mut P, word: PlainWord) -> u64
    requires there { IsTrue (has_plain (shape_of (P.seen port.old)) word) }
    requires kept { IsTrue (is_event_word word) }
    ensures { ReadsPlain (P.seen port.old) (P.seen port.new) word result }
{
    let index = place_of_plain(word, &port.shape()) as u32;
    port.step(CoreStep::RamLook { index })
}
