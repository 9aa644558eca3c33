//! A scenario of which the first steps are done and what is saved then, and a saved run that goes on: each step through the words of its guest and
//! the list registers of a PE.
#![tactic(auto)]

mod resumed;
mod until;

pub use resumed::run_saved;
pub use run_seq::{
    Command, Done, NoMemory, RunOut, Scenario, SeqPort, SeqWatch, eager, encode, run,
};
pub use until::run_until;
