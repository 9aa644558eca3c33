//! The bits and the fields of a word, each named by the number of its lowest bit.
#![tactic(auto)]

mod bit;
mod field;

pub use bit::{has_bit, put_bit};
pub use field::Field;
