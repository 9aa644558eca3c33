//! How a machine is saved and restored: its image is one JSON value, with the image of its guest and the registers that tell where the guest has its queue
//! and tables. These two calls ask for memory.
#![tactic(auto)]

mod law;
mod read;
mod restoring;
mod saving;
mod written;

pub use gic_vm::{
    Bases, Done, Encoding, GuestMemory, IccReg, IdealGuest, Layout, Lines, MOST_WANTED, Machine,
    MachineSpec, NotDone, NotMine, Refused, SPANS, Span, Wants, is_size,
};
pub use image_read::{Bytes, Fault};
pub use law::saves_read_back;
pub use restoring::{NotRestored, restore};
pub use saving::{NotSaved, save};
