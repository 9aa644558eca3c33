//! The halves of a 64-bit register: what an access of 4 bytes reads, and what it writes.
ghost use Rattle.std.specs.Prelude.{◌≡◌, ◌≢◌, ◌<◌};
ghost use Rattle.gic_frame.specs.Half.{half_read, half_written, half_limit, other_half};

use crate::bank::Half;

/// The bits of half a register.
const HALF_BITS: u32 = 32;
/// The greatest value of half a register.
const LOW_HALF: u64 = 0xffff_ffff;

impl Half {
    /// What an access to this half of a 64-bit register reads: bits [31:0] or [63:32] of its value, or all of it.
    pub fn of(self, value: u64) -> u64
        ensures value { result ≡ half_read self value }
        ensures fits { result < half_limit self }
    {
        match self {
            Half::Low => value & LOW_HALF,
            Half::High => value >> HALF_BITS,
            Half::Whole => value,
        }
    }

    /// The value of a 64-bit register after a write of this half: the other half is as it was stored. `value` is
    /// below 2^32 for a half.
    pub fn written(self, stored: u64, value: u64) -> u64
        requires fits { value < half_limit self }
        ensures value { result ≡ half_written self stored value }
        ensures this_half { half_read self result ≡ value }
        ensures other_half { self ≢ Half.Whole → half_read (other_half self) result ≡ half_read (other_half self) stored }
    {
        match self {
            Half::Low => (stored >> HALF_BITS << HALF_BITS) + value,
            Half::High => (value << HALF_BITS) + (stored & LOW_HALF),
            Half::Whole => value,
        }
    }
}
