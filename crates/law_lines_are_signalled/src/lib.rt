//! Laws of the interrupt lines of vCPUs on PEs.
#![tactic(auto)]

mod laws;

pub use laws::{lines_are_signalled, looks_are_signalled};
