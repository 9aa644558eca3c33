//! Laws of runs of the ideal controller that are broken off and go on.
#![tactic(auto)]

mod laws;

pub use laws::{eager_is_from_opening, past_faults_do_not_matter, runs_split};
