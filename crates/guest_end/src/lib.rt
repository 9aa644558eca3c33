//! How a guest ended whose words and CPU records are told of, while no interrupt is at a CPU interface.
#![tactic(auto)]

mod ends;
mod home;
mod outcome;

pub use ends::{ends_of, states_of};
pub use gic_ideal::{
    Answers as ScenarioAnswers, Pes, Scenario, ScenarioEnds, Step, VcpuName, eager, move_pes,
    opening_pes,
};
pub use home::end_of;
pub use outcome::{CpuRecs, Done, answer_of};
pub use port_core::{
    Answer, Answers as GuestAnswers, DeviceOp, GuestActor as Actor, GuestOp, ListOf, NoMemory,
    RunOut, opening_cpu,
};
