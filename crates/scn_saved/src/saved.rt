//! What of a run is kept where it is saved.
use crate::state::GuestState;
use scn_base::{ListOf, Pes, Scenario};

/// The state of each guest, by its number from 0.
pub type StateList = ListOf<GuestState>;

/// A run that was saved after some of its steps.
#[derive(Debug, Drop)]
pub struct Saved {
    /// The PEs, the list registers and the guests of the run, and of its steps those that are left.
    pub scenario: Scenario,
    /// How many steps were done: the first that is left has the number after it.
    pub done: u32,
    /// How many of the steps that were done are reads of a vCPU.
    pub reads: u32,
    /// Which vCPU stands on each PE, by PE from 0; none where a PE is empty.
    pub on_pe: Pes,
    /// The state of each guest.
    pub state: StateList,
}
