//! Laws of the eager controller: its steps are a fresh history of the ideal controller, and what it answers is possible.
#![tactic(auto)]

mod laws;

pub use laws::{eager_is_a_history, eager_is_possible};
