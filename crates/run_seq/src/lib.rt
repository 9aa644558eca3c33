//! The scheduled run: the steps of a scenario one after the other, each through the words of its guest and the list registers
//! of a PE.
#![tactic(auto)]

mod machine;
mod room;
mod scheduled;
mod start;
mod watch;

pub use law_ends_agree::{
    Command, Done, NoMemory, RunOut, Scenario, eager, encode, ends_of, states_of,
};
pub use law_one_thread_is_eager::SeqPort;
pub use scheduled::{run, run_from, run_on};
pub use start::Start;
pub use watch::SeqWatch;
