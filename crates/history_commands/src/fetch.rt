//! The doublewords of the next command, as a call read them.
ghost use Rattle.std.specs.Prelude.{◌≡◌, ◌↔◌, ◌<◌, ◌+◌, ◌++◌, ℕ, List, Option, IsTrue, IfOk, OnOk, map};
ghost use Rattle.history_commands.specs.Words.{IsShape};
ghost use Rattle.history_commands.specs.Registers.{Maps, is_size};
ghost use Rattle.history_commands.specs.Calls.{Happened, memory_at, memory_places, command_places, command_words as command_words_of, word_address as word_address_of, words_read as words_read_of};
ghost use Rattle.history_commands.specs.HistoryCalls.Found.{found_by};
ghost use Rattle.history_commands.specs.Known.{view_by, read_at};
ghost use Rattle.history_commands.specs.Stage.{AreReadBy};

use crate::its::Its;
use crate::known::{DOUBLEWORD_BYTES, word_address};
use history_calls::{
    Event, Found, GuestShape, ListOf, Made, Place, PlainWord, memory, split, was_read, word_at,
};
use std::alloc::{AllocError, Global};

/// Whether the word of memory that an access is in was read, if it is the guest's.
pub(crate) fn is_memory_read(shape: &GuestShape, reads: &[Made], address: u64, size: u32) -> bool
    requires shape { IsShape shape.now }
    requires size { IsTrue (is_size size) }
    ensures found { IsTrue result ↔ AreReadBy (found_by reads.now) reads.now (memory_places shape.now address size) }
    ensures known { (its : Its) (maps : Maps) (targets : ℕ → Option ℕ) → IsTrue result ↔ AreReadBy (view_by its maps targets reads.now) reads.now (memory_places shape.now address size) }
{
    match split(address, size, shape.ram) {
        Some(part) => {
            let word = PlainWord::Ram { index: part.index };
            was_read(reads, Place::Word { word })
        }
        None => true,
    }
}

/// Whether a doubleword of the next command was read, by its number from 0.
fn is_word_read(shape: &GuestShape, its: Its, reads: &[Made], number: u32) -> bool
    requires shape { IsShape shape.now }
    requires number { number < 4 }
    ensures { (maps : Maps) (targets : ℕ → Option ℕ) → IsTrue result ↔ AreReadBy (view_by its maps targets reads.now) reads.now (memory_places shape.now (word_address_of (view_by its maps targets reads.now) number) 8) }
{
    is_memory_read(shape, reads, word_address(its, number), DOUBLEWORD_BYTES)
}

/// Whether a doubleword of the next command was read, by its number from 0, and the one behind it.
fn are_two_read(shape: &GuestShape, its: Its, reads: &[Made], number: u32) -> bool
    requires shape { IsShape shape.now }
    requires number { number < 3 }
    ensures { (maps : Maps) (targets : ℕ → Option ℕ) → IsTrue result ↔ AreReadBy (view_by its maps targets reads.now) reads.now (memory_places shape.now (word_address_of (view_by its maps targets reads.now) number) 8 ++ memory_places shape.now (word_address_of (view_by its maps targets reads.now) (number + 1)) 8) }
{
    is_word_read(shape, its, reads, number) && is_word_read(shape, its, reads, number + 1)
}

/// Whether the doublewords of the next command were read.
pub(crate) fn is_fetched(shape: &GuestShape, its: Its, reads: &[Made]) -> bool
    requires { IsShape shape.now }
    ensures { (maps : Maps) (targets : ℕ → Option ℕ) → IsTrue result ↔ AreReadBy (view_by its maps targets reads.now) reads.now (command_places shape.now (view_by its maps targets reads.now)) }
{
    are_two_read(shape, its, reads, 0) && are_two_read(shape, its, reads, 2)
}

/// A doubleword of the next command, by its number from 0.
fn command_word(shape: &GuestShape, its: Its, reads: &[Made], number: u32) -> u64
    requires shape { IsShape shape.now }
    requires number { number < 4 }
    ensures { (maps : Maps) (targets : ℕ → Option ℕ) → result ≡ memory_at shape.now (view_by its maps targets reads.now) (word_address_of (view_by its maps targets reads.now) number) 8 }
{
    memory(shape, reads, word_address(its, number), DOUBLEWORD_BYTES)
}

/// The four doublewords of the next command.
pub(crate) fn command_words(shape: &GuestShape, its: Its, reads: &[Made]) -> [u64; 4]
    requires { IsShape shape.now }
    ensures { (maps : Maps) (targets : ℕ → Option ℕ) → result ≡ command_words_of shape.now (view_by its maps targets reads.now) }
{
    [
        command_word(shape, its, reads, 0),
        command_word(shape, its, reads, 1),
        command_word(shape, its, reads, 2),
        command_word(shape, its, reads, 3),
    ]
}

/// Adds the read of a doubleword of the next command, by its number from 0, if it is the guest's.
fn push_word(
    all: &mut ListOf<Made>,
    shape: &GuestShape,
    its: Its,
    reads: &[Made],
    number: u32,
) -> Result<(), AllocError>
    requires shape { IsShape shape.now }
    requires number { number < 4 }
    ensures { (maps : Maps) (targets : ℕ → Option ℕ) → OnOk result (all.new ≡ all.old ++ map (read_at (view_by its maps targets reads.now)) (memory_places shape.now (word_address_of (view_by its maps targets reads.now) number) 8)) }
{
    if let Some(part) = split(word_address(its, number), DOUBLEWORD_BYTES, shape.ram) {
        let word = PlainWord::Ram { index: part.index };
        all.push(Made {
            event: Event::Read {
                place: Place::Word { word },
            },
            found: Found::Word {
                value: word_at(reads, word),
            },
        })?;
    }
    Ok(())
}

/// The reads of the doublewords of the next command.
pub(crate) fn words_read(
    alloc: Global,
    shape: &GuestShape,
    its: Its,
    reads: &[Made],
) -> Result<ListOf<Made>, AllocError>
    requires { IsShape shape.now }
    ensures { (maps : Maps) (targets : ℕ → Option ℕ) → IfOk result (λ all. all ≡ words_read_of shape.now (view_by its maps targets reads.now)) }
{
    let mut all = ListOf::new(alloc);
    push_word(&mut all, shape, its, reads, 0)?;
    push_word(&mut all, shape, its, reads, 1)?;
    push_word(&mut all, shape, its, reads, 2)?;
    push_word(&mut all, shape, its, reads, 3)?;
    Ok(all)
}

/// A second list of the same events.
pub(crate) fn copied(alloc: Global, piece: &[Made]) -> Result<ListOf<Made>, AllocError>
    ensures { IfOk result (λ all. all ≡ piece.now) }
{
    let mut all = ListOf::new(alloc);
    for made in piece {
        all.push(Made {
            event: made.event,
            found: made.found,
        })?;
    }
    Ok(all)
}
