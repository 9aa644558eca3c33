//! The part of one interrupt in each register that has one for every interrupt.
#![tactic(auto)]

mod part;
mod router;

pub use part::{read_part, write_part};
