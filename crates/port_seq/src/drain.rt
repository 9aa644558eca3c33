//! The words of a table that is used no more, and its memory.
ghost use Rattle.std.specs.Prelude.{◌≡◌, IfOk};
ghost use Rattle.std.specs.Slots.{slots_items, slots_len, IsFull};

use atomic_table::Closed;
use port_ops::{WordList, closed_words};
use std::alloc::{AllocError, Global};

/// All words, of which there are so many, and the memory of the table is given back.
pub(crate) fn drain(
    alloc: Global,
    closed: Closed<(), Global>,
    count: usize,
) -> Result<WordList, AllocError>
    requires full { IsFull closed.words }
    requires count { slots_len closed.words ≡ count }
    requires none { slots_len closed.slots ≡ 0 }
    ensures { IfOk result (λ words. words ≡ slots_items closed.words) }
{
    let words = closed_words(alloc, &closed, count);
    closed.free();
    words
}
