//! Registers of one form that follow one another, and the accesses that they take.
ghost use Rattle.std.specs.Prelude.{◌≡◌, ◌≤◌, IsTrue};
ghost use Rattle.gic_frame.specs.Bank.{width_of, contains as is_in, half_at};

/// Which accesses a register takes.
#[derive(Clone, Copy, Debug, PartialEq, Eq, Hash)]
pub enum Access {
    /// 32 bits: size 4.
    Word,
    /// 32 bits: size 4, and size 2 for bits [15:0].
    WordOrLowHalf,
    /// 32 bits: size 4, and size 1 for each byte.
    WordOrByte,
    /// 64 bits: size 8, and size 4 for each half.
    Doubleword,
}

impl Access {
    /// How many bytes the register has: 4 or 8.
    pub fn width(self) -> u32
        ensures value { result ≡ width_of self }
        ensures some { 4 ≤ result }
    {
        match self {
            Access::Word | Access::WordOrLowHalf | Access::WordOrByte => 4,
            Access::Doubleword => 8,
        }
    }
}

/// Which half of a register an access is to.
#[derive(Clone, Copy, Debug, PartialEq, Eq, Hash)]
pub enum Half {
    /// Bits [31:0] of a 64-bit register, by size 4.
    Low,
    /// Bits [63:32] of a 64-bit register, by size 4.
    High,
    /// Every other access.
    Whole,
}

/// Registers that follow one another without a gap.
#[derive(Clone, Copy, Debug, PartialEq, Eq, Hash)]
pub struct Bank {
    /// The byte offset of the first register in its frame.
    pub start: u32,
    /// How many registers there are.
    pub count: u32,
    pub access: Access,
}

impl Bank {
    /// Whether a byte offset is in one of the registers.
    pub fn contains(&self, offset: u32) -> bool
        ensures { result ≡ is_in self.now offset }
    {
        offset >= self.start && (offset - self.start) / self.access.width() < self.count
    }

    /// The half of a register that an access of `size` bytes at a byte offset is to. None exactly where the
    /// access is not aligned to its size, or where the register takes no such access.
    pub fn half(&self, offset: u32, size: u32) -> Option<Half>
        requires { IsTrue (is_in self.now offset) }
        ensures { result ≡ half_at self.now offset size }
    {
        if size == 0 || offset % size != 0 {
            return None;
        }
        let byte = (offset - self.start) % self.access.width();
        match (self.access, size) {
            (Access::Doubleword, 4) if byte == 0 => Some(Half::Low),
            (Access::Doubleword, 4) => Some(Half::High),
            (Access::Doubleword, 8) => Some(Half::Whole),
            (Access::WordOrLowHalf, 2) if byte == 0 => Some(Half::Whole),
            (Access::WordOrByte, 1) => Some(Half::Whole),
            (Access::Word | Access::WordOrLowHalf | Access::WordOrByte, 4) => Some(Half::Whole),
            _ => None,
        }
    }
}
