//! A field of a word.
ghost use Rattle.std.specs.Prelude.{◌≡◌, ◌≤◌, ◌<◌, ◌+◌, ◌*◌, ◌^◌};
ghost use Rattle.gic_bits.specs.Bits.{field_at};

/// A field of a word: its bits [place + width - 1:place].
#[derive(Clone, Copy, Debug, PartialEq, Eq)]
pub struct Field {
    /// The number of its lowest bit, 0 to 63.
    pub place: u32,
    /// How many bits it has, 1 to 64 - `place`.
    pub width: u32,
}

impl Field {
    /// The value of the field in a word.
    pub fn of(self, word: u64) -> u64
        requires some { 1 ≤ self.width }
        requires within { self.place + self.width ≤ 64 }
        ensures value { result ≡ field_at word self.place self.width }
        ensures bound { result < 2 ^ self.width }
    {
        (word >> self.place) & (u64::MAX >> (64 - self.width))
    }

    /// The word that has this value, below 2^`width`, in the field, and 0 in all other bits.
    pub fn put(self, value: u64) -> u64
        requires some { 1 ≤ self.width }
        requires within { self.place + self.width ≤ 64 }
        requires fits { value < 2 ^ self.width }
        ensures { result ≡ value * 2 ^ self.place }
    {
        value << self.place
    }

    /// A word with the bits of the field as they are, and 0 in all other bits.
    pub fn in_place(self, word: u64) -> u64
        requires some { 1 ≤ self.width }
        requires within { self.place + self.width ≤ 64 }
        ensures { result ≡ field_at word self.place self.width * 2 ^ self.place }
    {
        self.put(self.of(word))
    }
}
