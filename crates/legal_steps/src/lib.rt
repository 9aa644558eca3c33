//! Legal lists, one moment after the other: which interrupts wait for an answer, and which moment goes on with a list.
#![tactic(auto)]

mod laws;

pub use laws::{legal_lists_go_on, one_pass_is_enough};
