//! Which interrupts, registers, operations and actors a guest has.
#![tactic(auto)]

mod held;
mod icc;
mod interrupt;
mod memory;
mod operation;
mod priority;
mod shape;

pub use held::{Back, Held, HeldIrq, MAX_LIST_REGISTERS, is_list_register_count};
pub use icc::IccReg;
pub use interrupt::{
    FIRST_ESPI, FIRST_LPI, FIRST_SPI, Key, PRIVATE_COUNT, SGI_COUNT, interrupt_count, key_at,
    key_of, place_of, places_are_ordered,
};
pub use memory::NoMemory;
pub use operation::{Actor, DeviceOp, Frame, GuestOp, Kind, PeOp};
pub use priority::{MAX_PRIORITY, PRIORITY_STEP};
pub use shape::{
    GuestShape, MAX_DEVICES, MAX_ESPIS, MAX_LPIS, MAX_RAM, MAX_SPIS, MAX_VCPUS, RAM_STEP, SPI_STEP,
};
