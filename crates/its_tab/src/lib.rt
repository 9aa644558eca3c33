//! The tables of an ITS: which devices, events and collections are mapped, and which commands they allow.
#![tactic(auto)]

mod carry;
mod fault;
mod message;
mod tables;

pub use fault::{CmdFault, DEVICES, MAX_SIZE, UNKNOWN_NUMBER, good_commands_keep_maps};
pub use its_cmd::{
    COMMAND_BYTES, Command, FIRST_LPI, GuestShape, MAX_LPIS, NoMemory, QueueWord, advance, decode,
    encode, pack, unpack,
};
pub use tables::ItsTables;
