//! The words of a guest, and their numbering.
ghost use Rattle.std.specs.Prelude.{◌≡◌, ℕ, ◌+◌, ◌<◌, ◌≤◌, ◌^◌, IsTrue, IfSome, IfNone, Some};
ghost use Rattle.std.specs.declared.option.Option.{Option};
ghost use Rattle.ideal_guest.specs.Words.{IsShape, has_interrupt, is_of_vcpu};
ghost use Rattle.core_words.specs.Place.{index_bits as bits_of, index_words as words_of, index_bit as bit_of_key, key_of_bit as key_of, has_word, word_count as count_of, place_of_word as place_in, word_at as word_in, whole_lines as lines_of, plain_from as plains_at, blocks_from as blocks_at, block_words as words_in_block, word_in_blocks as word_among_blocks, word_in_lines as word_among_lines, line_count as lines_in, lines_from as lines_at};

use ideal_guest::{GuestShape, Key, interrupt_count, key_at, place_of, plain_count};

/// The bits of a word.
pub const WORD_BITS: u32 = 64;
/// The words of a cache line.
const LINE_WORDS: usize = 8;
/// How many translation lines a guest with LPIs has.
pub const LINES: u32 = 64;
/// How many private interrupts a vCPU has; their INTIDs come first.
const PRIVATE: u32 = 32;
/// The INTID of the first extended SPI.
const FIRST_ESPI: u32 = 4096;
/// The INTID of the first LPI.
const FIRST_LPI: u32 = 8192;

/// A word of 64 bits that the actors of a guest share.
#[derive(Clone, Copy, Debug, PartialEq, Eq, Hash)]
pub enum WordId {
    /// The record of an interrupt, with the vCPU at whose interface it is.
    Irq(Key),
    /// EnableLPIs of a vCPU, and whether it is kicked.
    Vcpu(u32),
    /// The queue of the ITS, and which actor has the ITS.
    Queue,
    /// GICD_CTLR, and which actor copies its enables.
    Ctlr,
    /// A plain word, by its place among them.
    Plain(u32),
    /// A word of a vCPU's candidate index: a bit for each interrupt that the vCPU may have to look at.
    Index { vcpu: u32, word: u32 },
    /// A translation line of the ITS, by its number from 0 to 63.
    Line(u32),
}

/// How many interrupts a vCPU of the guest can have at its interface: its private ones and all shared ones.
pub fn index_bits(shape: &GuestShape) -> u32
    requires { IsShape shape.now }
    ensures value { result ≡ bits_of shape.now }
    ensures bound { result ≤ 6112 }
{
    PRIVATE + shape.spis + shape.espis + shape.lpis
}

/// How many words the candidate index of a vCPU has, 1 to 96.
pub fn index_words(shape: &GuestShape) -> u32
    requires { IsShape shape.now }
    ensures value { result ≡ words_of shape.now }
    ensures some { 1 ≤ result }
    ensures bound { result ≤ 96 }
{
    (index_bits(shape) + WORD_BITS - 1) / WORD_BITS
}

/// The bit of an interrupt in the candidate index of a vCPU that it can get to, from 0 on in key order.
pub fn index_bit(key: Key, shape: &GuestShape) -> u32
    requires shape { IsShape shape.now }
    requires there { IsTrue (has_interrupt shape.now key) }
    ensures value { result ≡ bit_of_key shape.now key }
    ensures within { result < bits_of shape.now }
    ensures inverse { (vcpu : ℕ) → IsTrue (is_of_vcpu vcpu key) → key_of shape.now vcpu result ≡ key }
{
    match key {
        Key::Private { id, .. } => id,
        Key::Spi(id) if id < FIRST_ESPI => id,
        Key::Spi(id) => PRIVATE + shape.spis + (id - FIRST_ESPI),
        Key::Lpi(id) => PRIVATE + shape.spis + shape.espis + (id - FIRST_LPI),
    }
}

/// The interrupt that has a bit in the candidate index of a vCPU.
pub fn key_of_bit(bit: u32, vcpu: u32, shape: &GuestShape) -> Key
    requires shape { IsShape shape.now }
    requires vcpu { vcpu < shape.now.vcpus }
    requires within { bit < bits_of shape.now }
    ensures value { result ≡ key_of shape.now vcpu bit }
    ensures there { IsTrue (has_interrupt shape.now result) }
    ensures own { IsTrue (is_of_vcpu vcpu result) }
    ensures inverse { bit_of_key shape.now result ≡ bit }
{
    let espis_from = PRIVATE + shape.spis;
    let lpis_from = espis_from + shape.espis;
    if bit < PRIVATE {
        Key::Private { vcpu, id: bit }
    } else if bit < espis_from {
        Key::Spi(bit)
    } else if bit < lpis_from {
        Key::Spi(bit - espis_from + FIRST_ESPI)
    } else {
        Key::Lpi(bit - lpis_from + FIRST_LPI)
    }
}

/// A number of words, rounded up to whole cache lines.
fn whole_lines(words: usize) -> usize
    requires { words < 2 ^ 32 }
    ensures { result ≡ lines_of words }
{
    (words + LINE_WORDS - 1) / LINE_WORDS * LINE_WORDS
}

/// Where the plain words begin.
fn plain_from(shape: &GuestShape) -> usize
    requires { IsShape shape.now }
    ensures value { result ≡ plains_at shape.now }
    ensures bound { result < 2 ^ 16 }
{
    interrupt_count(shape) + 2
}

/// Where the blocks of the vCPUs begin.
fn blocks_from(shape: &GuestShape) -> usize
    requires { IsShape shape.now }
    ensures value { result ≡ blocks_at shape.now }
    ensures bound { result < 2 ^ 23 }
{
    whole_lines(plain_from(shape) + plain_count(shape))
}

/// The words of a vCPU's block.
fn block_words(shape: &GuestShape) -> usize
    requires { IsShape shape.now }
    ensures value { result ≡ words_in_block shape.now }
    ensures some { 1 ≤ result }
    ensures bound { result ≤ 104 }
{
    whole_lines(1 + index_words(shape) as usize)
}

/// How many translation lines a guest has: 64 where it has LPIs, and else none.
pub fn line_count(shape: &GuestShape) -> u32
    ensures value { result ≡ lines_in shape.now }
    ensures bound { result ≤ 64 }
{
    if shape.lpis == 0 { 0 } else { LINES }
}

/// Where the translation lines begin.
fn lines_from(shape: &GuestShape) -> usize
    requires { IsShape shape.now }
    ensures value { result ≡ lines_at shape.now }
    ensures bound { result < 2 ^ 23 + 2 ^ 12 }
{
    blocks_from(shape) + shape.vcpus as usize * block_words(shape)
}

/// How many places there are, those that only fill a line among them.
pub fn word_count(shape: &GuestShape) -> usize
    requires { IsShape shape.now }
    ensures value { result ≡ count_of shape.now }
    ensures bound { result < 2 ^ 24 }
{
    lines_from(shape) + line_count(shape) as usize * LINE_WORDS
}

/// The place of a word among all of the guest's, from 0.
#[inline(always)]
pub fn place_of_word(word: WordId, shape: &GuestShape) -> usize
    requires shape { IsShape shape.now }
    requires there { IsTrue (has_word shape.now word) }
    ensures value { result ≡ place_in shape.now word }
    ensures within { result < count_of shape.now }
    ensures inverse { word_in shape.now result ≡ Some word }
{
    match word {
        WordId::Irq(key) => place_of(key, shape),
        WordId::Queue => interrupt_count(shape),
        WordId::Ctlr => interrupt_count(shape) + 1,
        WordId::Plain(index) => plain_from(shape) + index as usize,
        WordId::Vcpu(vcpu) => blocks_from(shape) + vcpu as usize * block_words(shape),
        WordId::Index { vcpu, word } => {
            blocks_from(shape) + vcpu as usize * block_words(shape) + (1 + word as usize)
        }
        WordId::Line(line) => lines_from(shape) + line as usize * LINE_WORDS,
    }
}

/// The word at a place among the blocks.
fn word_in_blocks(place: usize, shape: &GuestShape) -> Option<WordId>
    requires shape { IsShape shape.now }
    requires within { place < 2 ^ 16 }
    ensures { result ≡ word_among_blocks shape.now place }
{
    let vcpu = (place / block_words(shape)) as u32;
    let within = (place % block_words(shape)) as u32;
    if within == 0 {
        Some(WordId::Vcpu(vcpu))
    } else if within <= index_words(shape) {
        Some(WordId::Index {
            vcpu,
            word: within - 1,
        })
    } else {
        None
    }
}

/// The word at a place among the translation lines.
fn word_in_lines(place: usize) -> Option<WordId>
    requires { place < 2 ^ 16 }
    ensures { result ≡ word_among_lines place }
{
    (place % LINE_WORDS == 0).then_some(WordId::Line((place / LINE_WORDS) as u32))
}

/// The word at a place. None where the place only fills a cache line.
pub fn word_at(place: usize, shape: &GuestShape) -> Option<WordId>
    requires shape { IsShape shape.now }
    requires within { place < count_of shape.now }
    ensures value { result ≡ word_in shape.now place }
    ensures there { IfSome result (λ word. IsTrue (has_word shape.now word)) }
    ensures inverse { IfSome result (λ word. place_in shape.now word ≡ place) }
{
    let irqs = interrupt_count(shape);
    if place < irqs {
        Some(WordId::Irq(key_at(place, shape)))
    } else if place == irqs {
        Some(WordId::Queue)
    } else if place == irqs + 1 {
        Some(WordId::Ctlr)
    } else if place < plain_from(shape) + plain_count(shape) {
        Some(WordId::Plain((place - plain_from(shape)) as u32))
    } else if place < blocks_from(shape) {
        None
    } else if place < lines_from(shape) {
        word_in_blocks(place - blocks_from(shape), shape)
    } else {
        word_in_lines(place - lines_from(shape))
    }
}
