//! The words of a table that is used no more.
ghost use Rattle.std.specs.Prelude.{◌≡◌, IfOk};
ghost use Rattle.std.specs.Slots.{slots_items, slots_len, IsFull};

use atomic_table::Closed;
use port_core::{ListOf, WordList};
use std::alloc::{AllocError, Global};

/// All words of a closed table, of which there are so many. An error where memory for them is refused.
pub fn closed_words<S>(
    alloc: Global,
    closed: &Closed<S, Global>,
    count: usize,
) -> Result<WordList, AllocError>
    requires full { IsFull closed.now.words }
    requires count { slots_len closed.now.words ≡ count }
    ensures { IfOk result (λ words. words ≡ slots_items closed.now.words) }
{
    let mut words = ListOf::new(alloc);
    for place in 0..count {
        words.push(closed.word(place))?;
    }
    Ok(words)
}
