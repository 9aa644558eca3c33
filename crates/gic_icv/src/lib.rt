//! A guest's CPU interface over packed list registers.
#![tactic(auto)]

mod entries;
mod laws;
mod registers;
mod trap;

pub use gic_ich::{
    FIRST_LPI, Field, Frame, Group, Irq, Key, Kind, NoMemory, Route, has_bit, irq_unpack as unpack,
    target_in,
};
pub use laws::places_agree;
pub use registers::{Outcome, access};
pub use trap::TrapCause;
