//! The part of one interrupt in a register that has one for each.
ghost use Rattle.std.specs.Prelude.{◌≡◌, ◌≤◌, ◌<◌, ◌*◌, ◌^◌};
ghost use Rattle.gic_frame.specs.Part.{part_bits as bits_of, parts_in as parts_of, access_of as access_by};

use crate::bank::Access;
use floor_words::Kind;

/// The bits of a byte.
pub(crate) const BYTE_BITS: u32 = 8;

/// How many bits of a register of this kind each interrupt has: 1, 2, 8 or 64.
pub fn part_bits(kind: Kind) -> u32
    ensures value { result ≡ bits_of kind }
    ensures some { 1 ≤ result }
    ensures most { result ≤ 64 }
{
    match kind {
        Kind::Priority => 8,
        Kind::Config => 2,
        Kind::Routing => 64,
        Kind::Group
        | Kind::SetEnable
        | Kind::ClearEnable
        | Kind::SetPending
        | Kind::ClearPending
        | Kind::SetActive
        | Kind::ClearActive => 1,
    }
}

/// Which accesses the registers of this kind take.
pub fn access_of(kind: Kind) -> Access
    ensures { result ≡ access_by kind }
{
    match kind {
        Kind::Priority => Access::WordOrByte,
        Kind::Routing => Access::Doubleword,
        Kind::Group
        | Kind::SetEnable
        | Kind::ClearEnable
        | Kind::SetPending
        | Kind::ClearPending
        | Kind::SetActive
        | Kind::ClearActive
        | Kind::Config => Access::Word,
    }
}

/// How many interrupts have their parts in so many bytes of the registers of this kind.
pub fn parts_in(kind: Kind, bytes: u32) -> u32
    requires { bytes < 2 ^ 29 }
    ensures value { result ≡ parts_of kind bytes }
    ensures most { result ≤ bytes * 8 }
{
    bytes * BYTE_BITS / part_bits(kind)
}
