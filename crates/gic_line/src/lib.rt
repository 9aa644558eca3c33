//! The interrupt lines of a vCPU.
#![tactic(auto)]

mod lines;

pub use floor_registers::{Candidate, deliverable, earlier};
pub use lines::Lines;
