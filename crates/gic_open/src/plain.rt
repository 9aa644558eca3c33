//! The plain words of a guest: its memory and the registers that are only stored.
ghost use Rattle.std.specs.Prelude.{◌≡◌, ◌<◌, ◌^◌, IsTrue, IfOk, replicate};
ghost use Rattle.gic_guest.specs.Words.{IsShape};
ghost use Rattle.gic_open.specs.Plain.{has_plain, plain_count as count_of, place_of_plain as place_in, its_word_of, plain_at as plain_in};

use gic_guest::GuestShape;
use gic_prio::ListOf;
use std::alloc::{AllocError, Global};

/// The bytes of a word.
const WORD_BYTES: u32 = 8;
/// How many words a vCPU has: PROPBASER and PENDBASER.
const VCPU_WORDS: u32 = 2;
/// How many words the ITS has.
const ITS_WORDS: u32 = 6;

/// A word of 64 bits that is only stored and read back.
#[derive(Clone, Copy, Debug, PartialEq, Eq, Hash)]
pub enum PlainWord {
    /// Eight bytes of the guest's memory, little-endian, by their number from 0.
    Ram { index: u32 },
    /// GICR_PROPBASER of a vCPU.
    Propbaser { vcpu: u32 },
    /// GICR_PENDBASER of a vCPU.
    Pendbaser { vcpu: u32 },
    /// GITS_CTLR.
    ItsCtlr,
    /// GITS_CBASER.
    Cbaser,
    /// GITS_CWRITER.
    Cwriter,
    /// GITS_BASER0.
    Baser0,
    /// GITS_BASER1.
    Baser1,
    /// The number of the fault of the command at which the ITS stalls.
    Fault,
}

/// How many plain words a guest has.
pub fn plain_count(shape: &GuestShape) -> usize
    requires { IsShape shape.now }
    ensures value { result ≡ count_of shape.now }
    ensures small { result < 2 ^ 22 }
{
    (shape.ram / WORD_BYTES + VCPU_WORDS * shape.vcpus + ITS_WORDS) as usize
}

/// The place of a plain word among all of the guest's, from 0: those of the memory come first, then those of each
/// vCPU, and then those of the ITS.
pub fn place_of_plain(word: PlainWord, shape: &GuestShape) -> usize
    requires shape { IsShape shape.now }
    requires there { IsTrue (has_plain shape.now word) }
    ensures value { result ≡ place_in shape.now word }
    ensures within { result < count_of shape.now }
    ensures inverse { plain_in shape.now result ≡ word }
{
    let vcpus_from = shape.ram / WORD_BYTES;
    let its_from = vcpus_from + VCPU_WORDS * shape.vcpus;
    let place = match word {
        PlainWord::Ram { index } => index,
        PlainWord::Propbaser { vcpu } => vcpus_from + VCPU_WORDS * vcpu,
        PlainWord::Pendbaser { vcpu } => vcpus_from + VCPU_WORDS * vcpu + 1,
        PlainWord::ItsCtlr => its_from,
        PlainWord::Cbaser => its_from + 1,
        PlainWord::Cwriter => its_from + 2,
        PlainWord::Baser0 => its_from + 3,
        PlainWord::Baser1 => its_from + 4,
        PlainWord::Fault => its_from + 5,
    };
    place as usize
}

/// The word of the ITS with a number from 0.
fn its_word(number: u32) -> PlainWord
    requires { number < 6 }
    ensures { result ≡ its_word_of number }
{
    match number {
        0 => PlainWord::ItsCtlr,
        1 => PlainWord::Cbaser,
        2 => PlainWord::Cwriter,
        3 => PlainWord::Baser0,
        4 => PlainWord::Baser1,
        _ => PlainWord::Fault,
    }
}

/// The plain word at a place.
pub fn plain_at(place: usize, shape: &GuestShape) -> PlainWord
    requires shape { IsShape shape.now }
    requires within { place < count_of shape.now }
    ensures value { result ≡ plain_in shape.now place }
    ensures there { IsTrue (has_plain shape.now result) }
    ensures inverse { place_in shape.now result ≡ place }
{
    let place = place as u32;
    let vcpus_from = shape.ram / WORD_BYTES;
    let its_from = vcpus_from + VCPU_WORDS * shape.vcpus;
    if place < vcpus_from {
        return PlainWord::Ram { index: place };
    }
    if place >= its_from {
        return its_word(place - its_from);
    }
    let vcpu = (place - vcpus_from) / VCPU_WORDS;
    if (place - vcpus_from) % VCPU_WORDS == 0 {
        PlainWord::Propbaser { vcpu }
    } else {
        PlainWord::Pendbaser { vcpu }
    }
}

/// The plain words of a guest as it opens, each 0. An error where memory for them is refused.
pub fn plains(alloc: Global, shape: &GuestShape) -> Result<ListOf<u64>, AllocError>
    requires { IsShape shape.now }
    ensures { IfOk result (λ words. words ≡ replicate (count_of shape.now) 0) }
{
    let words = vec![in alloc; 0; plain_count(shape)]?;
    Ok(ListOf::from(words))
}
