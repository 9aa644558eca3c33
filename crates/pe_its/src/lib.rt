//! The accesses of a vCPU that has nothing at its interface to the ITS.
#![tactic(auto)]

mod call;
mod change;
mod read;
mod register;
mod write;

pub use call::its_op;
pub use pe_mem::{
    QueueEnd, dist_op, look_at_queue, memory_op, move_queue, redist_op, run_commands, run_queue,
    shut,
};
pub use write::its_write;
