//! The value of an access to registers that have a part for each interrupt, as the parts of its interrupts.
ghost use Rattle.std.specs.Prelude.{◌≡◌, ◌<◌, ◌≤◌, ◌+◌, ◌*◌, ◌^◌};
ghost use Rattle.gic_frame.specs.Part.{part_bits as bits_of};
ghost use Rattle.gic_frame.specs.Parts.{part_in as part_within, part_at, JoiningUndoesCutting};

use crate::part::part_bits;
use floor_words::{Field, Kind};

/// The field that the part of an interrupt is, by its number among those of the access.
fn field_of(kind: Kind, number: u32) -> Field
    requires { number * bits_of kind + bits_of kind ≤ 64 }
    ensures place { result.place ≡ number * bits_of kind }
    ensures width { result.width ≡ bits_of kind }
{
    let width = part_bits(kind);
    Field {
        place: number * width,
        width,
    }
}

/// The part of one interrupt in the value of an access to registers of this kind. `number` counts the interrupts of the
/// access from 0; the parts up to this one fit the 64 bits of a value.
pub fn part_in(kind: Kind, value: u64, number: u32) -> u64
    requires { number * bits_of kind + bits_of kind ≤ 64 }
    ensures value { result ≡ part_within kind value number }
    ensures fits { result < 2 ^ bits_of kind }
{
    field_of(kind, number).of(value)
}

/// The value that is joined from the parts of the interrupts before this one, with this one's part too. `number` counts the
/// interrupts of the access from 0; `value` has only bits of the parts before, and is 0 where there are none.
pub fn with_part(kind: Kind, value: u64, part: u64, number: u32) -> u64
    requires within { number * bits_of kind + bits_of kind ≤ 64 }
    requires before { value < 2 ^ (number * bits_of kind) }
    requires fits { part < 2 ^ bits_of kind }
    ensures value { result ≡ value + part_at kind part number }
    ensures before { result < 2 ^ ((number + 1) * bits_of kind) }
    ensures part { part_within kind result number ≡ part }
{
    value + field_of(kind, number).put(part)
}

/// A law of the parts: joining the parts into which a value is cut gives the value, and a value that is joined is cut into the
/// parts that were joined.
pub fn joining_undoes_cutting()
    ensures { JoiningUndoesCutting }
{}
