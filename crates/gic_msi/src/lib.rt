//! Message-signalled interrupts through the translation lines of the ITS: a message whose line has it needs neither the ITS nor a wait.
#![tactic(auto)]

mod fill;
mod line;
mod posts;
mod send;

pub use dev_port::{
    AlreadySo, CoreStep, DeviceOp, GuestOp, Key, LrList, NoMemory, Port, VcpuWord, Wire, WordId,
    give_turn, message, msi, put_plain, read_plain, set_wire, take_turn,
};
pub use fill::msi_fill;
pub use line::line_of_message;
pub use posts::{MsiMiss, post};
pub use send::send_msi;
