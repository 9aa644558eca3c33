//! Laws of what the actors of a guest do side by side.
#![tactic(auto)]

mod laws;

pub use laws::{threads_are_a_history, threads_weave, worked_threads_are_a_history};
