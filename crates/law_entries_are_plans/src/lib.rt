//! Laws of vCPUs that enter a PE.
#![tactic(auto)]

mod laws;

pub use laws::{a_worked_entry_shows_home, entries_show_home};
