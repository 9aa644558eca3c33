//! What a VMM whose vCPUs run on threads needs beside the calls: a vCPU at rest, kicks that wake its thread, and the line of its timer.
#![tactic(auto)]

mod at_rest;
mod beds;
mod timer;
mod turns;
mod waking;

pub use at_rest::{can_call, rest};
pub use beds::Beds;
pub use timer::Timer;
pub use turns::{TakesTurns, take_turns, take_turns_of_two};
pub use waking::{Wake, Waking};
