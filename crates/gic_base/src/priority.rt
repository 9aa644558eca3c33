//! The priorities of interrupts.

/// Priorities are the multiples of this: they have five bits (IHI 0069, "Interrupt prioritization"; own choice of the
/// number of bits).
pub const PRIORITY_STEP: u8 = 8;
/// The greatest priority value, the least urgent.
pub const MAX_PRIORITY: u8 = 248;
