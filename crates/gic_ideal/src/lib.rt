//! The ideal controller: no list registers, each step done whole. It is a plain program, and what it
//! computes is the definition of what is right.
#![tactic(auto)]

mod ends;
mod laws;
mod run;
mod shown;

pub use ends::end_of;
pub use ideal_guest::{IdealGuest, IrqRecords};
pub use laws::{
    acknowledge_answers, acknowledge_runs, acknowledge_takes_cause, answer_acknowledges,
    caused_between, caused_between_reads, deactivated_between, edge_pending_exactly,
    events_keep_sound, latched_exactly, runs_are_sound, spurious_read_exactly, steps_are_events,
    steps_can_follow,
};
pub use run::{eager, eager_from};
pub use scn_base::{
    Answers, Ends as ScenarioEnds, Pes, Scenario, Step, VcpuName, move_pes, opening_pes,
};
