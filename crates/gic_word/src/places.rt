//! Where each field of an interrupt's word stands. A field of a vCPU's number has room for 63 of them, and a
//! route for all 32 bits of an affinity; how many vCPUs a guest can have is `gic_base::MAX_VCPUS` alone.
use gic_bits::Field;

/// The bit of `soft`.
pub const SOFT_BIT: u32 = 0;
/// The bit of `line`.
pub const LINE_BIT: u32 = 1;
/// The bit of `rise`.
pub const RISE_BIT: u32 = 2;
/// The bit of `edge`.
pub const EDGE_BIT: u32 = 3;
/// The bit of `enabled`.
pub const ENABLED_BIT: u32 = 4;
/// The bit of `group`.
pub const GROUP_BIT: u32 = 5;
/// The bit of `en0`.
pub const EN0_BIT: u32 = 6;
/// The bit of `en1`.
pub const EN1_BIT: u32 = 7;
/// The bit of `want`.
pub const WANT_BIT: u32 = 8;
/// `prio`, divided by 8.
pub const PRIORITY: Field = Field { place: 9, width: 5 };
/// `act_by`: 0 for none, or one more than the vCPU's number.
pub const ACTIVE_BY: Field = Field {
    place: 14,
    width: 6,
};
/// `holder`, likewise.
pub const HOLDER: Field = Field {
    place: 20,
    width: 6,
};
/// The bit that says that the route is an affinity.
pub const BY_AFFINITY_BIT: u32 = 26;
/// The affinity, or the target's number, likewise.
pub const ROUTE: Field = Field {
    place: 27,
    width: 32,
};
/// All bits from here on belong to no field.
pub const END: u64 = 1 << 59;

/// The mask of `soft` in a word.
pub const SOFT: u64 = 1 << SOFT_BIT;
/// The mask of `line` in a word.
pub const LINE: u64 = 1 << LINE_BIT;
/// The mask of `rise` in a word.
pub const RISE: u64 = 1 << RISE_BIT;
/// A fetch-or of this pends an interrupt by software.
pub const RAISE: u64 = SOFT;
/// A fetch-or of this moves an interrupt's wire up.
pub const WIRE_UP: u64 = LINE + RISE;
/// A fetch-and of this moves an interrupt's wire down.
pub const WIRE_DOWN: u64 = u64::MAX - LINE;
/// A fetch-and of this releases an interrupt: no vCPU holds it.
pub const HELD_BY_NONE: u64 = u64::MAX - (0x3F << 20);
/// A fetch-and of this makes an interrupt inactive.
pub const ACTIVE_BY_NONE: u64 = u64::MAX - (0x3F << 14);
