//! Interrupts that are late at a vCPU's interface leave it before the vCPU has scanned as it owes.
#![tactic(auto)]

mod laws;

pub use laws::{deactivations_are_fresh, late_ones_leave, late_run_leaves, raised_run_stays};
