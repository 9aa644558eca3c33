//! Laws of the ITS's translation lines in every run of the core: what a device finds in one is what the guest's maps say.
#![tactic(auto)]

mod laws;

pub use laws::lines_are_true;
