//! Accesses to a guest's memory of 64-bit words.
ghost use Rattle.std.specs.Prelude.{◌≡◌, ◌<◌, ◌+◌, ◌/◌, ◌%◌, ◌^◌, IsTrue, IfSome};
ghost use Rattle.gic_ram.specs.Access.{is_size, part_of, IsPart, is_within, extracted, inserted};
ghost use Rattle.gic_ram.specs.Bytes.{ReadsAreBytes, WritesAreBytes, WritesReadBack};

/// The bytes of a word.
pub const WORD_BYTES: u32 = 8;
/// The bits of a byte.
const BYTE_BITS: u32 = 8;
/// The bits of a word.
const WORD_BITS: u32 = WORD_BYTES * BYTE_BITS;

/// Where an access stands in a memory of 64-bit words.
#[derive(Clone, Copy, Debug, PartialEq, Eq, Hash)]
pub struct Part {
    /// The word, from 0.
    pub index: u32,
    /// The lowest bit of that word.
    pub shift: u32,
    /// How many bits, at least 1; with `shift` at most 64.
    pub bits: u32,
}

/// The part of an access of `size` bytes (1, 2, 4 or 8) at the byte `address`, in a memory of `ram` bytes
/// (a multiple of 8). None exactly where the address is not aligned to the size, or a byte is outside.
pub fn split(address: u64, size: u32, ram: u32) -> Option<Part>
    requires size { IsTrue (is_size size) }
    requires words { ram % WORD_BYTES ≡ 0 }
    ensures value { result ≡ part_of address size ram }
    ensures part { IfSome result IsPart }
    ensures inside { IfSome result (λ part. part.index < ram / 8) }
{
    let bytes = u64::from(size);
    if address % bytes != 0 || address >= u64::from(ram) {
        return None;
    }
    let place = address as u32;
    Some(Part {
        index: place / WORD_BYTES,
        shift: place % WORD_BYTES * BYTE_BITS,
        bits: size * BYTE_BITS,
    })
}

/// The bits of a part of a word, as a number.
pub fn extract(word: u64, part: &Part) -> u64
    requires { IsPart part.now }
    ensures value { result ≡ extracted word part.now }
    ensures small { result < 2 ^ part.now.bits }
{
    (word >> part.shift) & (u64::MAX >> (WORD_BITS - part.bits))
}

/// The word with the bits of a part replaced by `value`, which is below 2 to the number of these bits.
pub fn insert(word: u64, part: &Part, value: u64) -> u64
    requires part { IsPart part.now }
    requires fits { value < 2 ^ part.now.bits }
    ensures value { result ≡ inserted word part.now value }
    ensures back { extracted result part.now ≡ value }
    ensures below { result % 2 ^ part.now.shift ≡ word % 2 ^ part.now.shift }
    ensures above { result / 2 ^ (part.now.shift + part.now.bits) ≡ word / 2 ^ (part.now.shift + part.now.bits) }
{
    word - (extract(word, part) << part.shift) + (value << part.shift)
}

/// Laws of every memory, access and value: what is read is the number that the bytes from the address on
/// spell, little-endian; a write sets these bytes and no other; and it is read back.
pub fn memory_is_bytes()
    ensures reads { ReadsAreBytes }
    ensures writes { WritesAreBytes }
    ensures back { WritesReadBack }
{}
