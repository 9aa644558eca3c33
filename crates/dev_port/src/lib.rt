//! What a device does to its guest, over the device's port.
#![tactic(auto)]

mod its;
mod send;
mod wire;

pub use its::{msi, raise_lpi, translate};
pub use its_exec::{
    CoreStep, DeviceOp, GuestOp, Key, Line, LrList, NoMemory, Port, VcpuWord, WordId, give_turn,
    put_plain, raise, read_plain, take_turn,
};
pub use send::message;
pub use wire::{AlreadySo, Wire, set_wire};
