//! The run of a scenario on threads, through the words of its guests.
#![tactic(auto)]

mod crew;
mod history;
mod threaded;
mod watch;

pub use history::run;
pub use thr_cast::{RootSeat, SharedWords};
pub use threaded::run_on;
pub use watch::ThrWatch;
