//! Worked scenarios as data: of each its fields, its steps, and the lines that are written of it.
//!
//! What is written was worked out by hand, from the architecture and the rules of `docs/`, and never taken from a
//! run.
#![tactic(auto)]

pub mod faults;
pub mod interface;
pub mod its;
pub mod list_registers;
pub mod memory_mapped;
pub mod steps;
pub mod vcpus;

/// A scenario, and what `run` writes of it.
pub struct Row {
    /// What the row shows.
    pub shows: &'static str,
    /// The fields of the scenario but for `steps`, as JSON.
    pub before: &'static str,
    /// The steps, in parts that rows share.
    pub steps: &'static [&'static [&'static str]],
    /// The lines that are written.
    pub lines: &'static [&'static str],
}
