//! The memory of a guest: accesses of 1, 2, 4 or 8 bytes to words of 64 bits, little-endian, and the tables of LPIs in it, where
//! an LPI's configuration byte and its pending bit stand and what the byte says.
#![tactic(auto)]

mod access;
mod tables;

pub use access::{Part, WORD_BYTES, extract, insert, memory_is_bytes, split};
pub use floor_words::{
    Actor, DeviceOp, FIRST_ESPI, FIRST_SPI, Frame, GuestOp, GuestShape, IccReg, Key, Kind, ListOf,
    MAX_DEVICES, MAX_ESPIS, MAX_LIST_REGISTERS, MAX_LPIS, MAX_PRIORITY, MAX_RAM, MAX_SPIS,
    MAX_VCPUS, NoMemory, PRIORITY_STEP, PRIVATE_COUNT, PeOp, RAM_STEP, SGI_COUNT, SPI_STEP,
    interrupt_count, is_list_register_count, key_of, pending, place_of, target_in, unpack,
};
pub use tables::{config_address, config_of, pending_address};
