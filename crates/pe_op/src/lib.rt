//! One operation of a vCPU that is on a PE, over the port of its guest, and its access of any frame.
#![tactic(auto)]

mod frame;
mod operation;
mod round;

pub use frame::mem_op;
pub use operation::guest_op;
pub use pe_icc::{Lines, Loaded, Shelved, copy_of, enter, icc_op, leave, lines};
pub use pe_its::{
    QueueEnd, its_op, its_write, look_at_queue, memory_op, move_queue, run_commands, run_queue,
    shut,
};
