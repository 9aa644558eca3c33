//! What a vCPU holds at its interface, and what it brings back.
ghost use Rattle.std.specs.Prelude.{◌≤◌, ◌↔◌, IsTrue};

use crate::interrupt::Key;

/// The most list registers that a PE has (IHI 0069, ICH_VTR_EL2.ListRegs: own choice of 16).
pub const MAX_LIST_REGISTERS: usize = 16;

/// Whether a PE can have this many list registers: 1 to 16.
pub fn is_list_register_count(count: u64) -> bool
    ensures { IsTrue result ↔ ((1 ≤ count) × (count ≤ 16)) }
{
    (1..=MAX_LIST_REGISTERS as u64).contains(&count)
}

/// An interrupt at a vCPU's interface, with the latched causes that it brought.
#[derive(Clone, Copy, Debug, PartialEq, Eq, Hash)]
pub struct HeldIrq {
    pub key: Key,
    /// The wire had risen.
    pub rise: bool,
    /// It had been pended by software.
    pub soft: bool,
    /// Edge-triggered, or else level-sensitive.
    pub edge: bool,
}

/// The interrupts that a vCPU holds, each at the place of its list register.
pub type Held = [Option<HeldIrq>; MAX_LIST_REGISTERS];

/// What an interrupt brings back from an interface.
#[derive(Clone, Copy, Debug, PartialEq, Eq, Hash)]
pub struct Back {
    /// The rise of the wire that no acknowledge consumed.
    pub rise: bool,
    /// What was pended by software and no acknowledge consumed.
    pub soft: bool,
    /// It is active there.
    pub active: bool,
}
