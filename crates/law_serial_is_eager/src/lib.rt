//! Laws of runs of the core in which one call follows the other.
#![tactic(auto)]

mod laws;

pub use laws::{serial_runs_are_eager, worked_parts_are_fit};
