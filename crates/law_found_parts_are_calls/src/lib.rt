//! Laws of runs of the core whose parts are told with what they found.
#![tactic(auto)]

mod laws;

pub use laws::{
    found_parts_are_calls, found_runs_are_eager, worked_command_is_found, worked_parts_are_found,
};
