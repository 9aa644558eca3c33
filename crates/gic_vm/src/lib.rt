//! An interrupt controller for a VMM with one thread, or one lock: the ideal controller as a machine with addresses, system registers, devices' wires and
//! the interrupt lines of its vCPUs. Every call takes any numbers; none waits, and none but the opening asks for memory.
#![tactic(auto)]

mod access;
mod device;
mod done;
mod encoding;
mod identity;
mod keep;
mod layout;
mod lines;
mod machine;
mod mmio;
mod own;
mod reset;
mod wants;

pub use done::{Done, NotDone, NotMine, Refused};
pub use encoding::Encoding;
pub use gic_line::Lines;
pub use guest_memory::{Bases, GuestMemory, MOST_WANTED, SPANS, Span, Wants};
pub use ideal_guest::{IccReg, IdealGuest};
pub use layout::{Layout, MachineSpec};
pub use lines::lines_tell_answers;
pub use machine::Machine;
pub use mmio::is_size;
