//! A vCPU's accesses of its CPU interface, over the port of its guest.
#![tactic(auto)]

mod bare;
mod end;
mod first;
mod icc;
mod laws;
mod line;
mod operate;
mod prepare;
mod reenter;
mod sgi;
mod stay;

pub use gic_line::Lines;
pub use icc::icc_op;
pub use laws::{entry_runs, exit_rests};
pub use line::lines;
pub use pe_loop::{Frame, GuestOp, Loaded, NoMemory, Port, Shelved, enter, leave};
pub use stay::copy_of;
