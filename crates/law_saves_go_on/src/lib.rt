//! Laws of runs of the ideal controller that are saved and go on: of the states that are saved, and of their text.
#![tactic(auto)]

mod law;

pub use law::{alike_are_saved_alike, save_then_resume, saved_then_resumed, states_hold_own_bits};
pub use saved_take::saved;
