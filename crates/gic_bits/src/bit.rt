//! One bit of a word.
ghost use Rattle.std.specs.Prelude.{◌≡◌, ◌<◌, ◌*◌, ◌^◌};
ghost use Rattle.gic_bits.specs.Bits.{bit_of, has_bit as bit_is_set};

/// Whether the bit at a place, 0 to 63, is 1.
pub fn has_bit(word: u64, place: u32) -> bool
    requires { place < 64 }
    ensures { result ≡ bit_is_set word place }
{
    (word >> place) & 1 == 1
}

/// The word that has this bit at a place, 0 to 63, and 0 in all other bits.
pub fn put_bit(is_set: bool, place: u32) -> u64
    requires { place < 64 }
    ensures { result ≡ bit_of is_set * 2 ^ place }
{
    u64::from(is_set) << place
}
