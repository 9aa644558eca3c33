//! Laws of the ends of runs of the core: with no interrupt at a CPU interface, what is told of a guest's words and actors is
//! the ideal controller's guest.
#![tactic(auto)]

mod laws;

pub use guest_end::{
    CpuRecs, Done, Pes, Scenario, Step, VcpuName, answer_of, eager, ends_of, move_pes, opening_pes,
    states_of,
};
pub use laws::{runs_end_at_home, worked_runs_end};
pub use port_ops::{
    Actor, Answer, Answers, Command, DeviceOp, GuestOp, Guests, LrList, NoMemory, PeOp, RunOut,
    encode,
};
