//! Who acts in a run on threads: each vCPU and each device with its script and its port, the PEs and devices that have a thread,
//! and what the steps answered, by what the vCPUs heard.
#![tactic(auto)]

mod answers;
mod back;
mod cast;
mod crew;
mod scripts;

pub use answers::{Heard, all_answers};
pub use back::{Back, take_apart};
pub use cast::Cast;
pub use crew::{Hand, add_devices, add_pes, gather};
pub use guest_end::{
    Done, NoMemory, RunOut, Scenario, ScenarioAnswers, ScenarioEnds as Ends, ends_of,
};
pub use thr_trip::{
    Gate, Naming, RootSeat, SharedWords, Shelf, Trip, Turns, close, finish, of, run_all, start,
};
