//! Laws of runs that are saved: what is saved of a scenario can have been saved, and is resumed.
#![tactic(auto)]

mod law;

pub use law::{saved_runs_are_resumed, saved_runs_are_valid};
