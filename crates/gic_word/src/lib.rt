//! The state of one interrupt, as a record and as a word.
#![tactic(auto)]

mod causes;
mod laws;
mod places;
mod record;
mod release;
mod word;

pub use causes::has_active_state;
pub use gic_base::{
    Actor, Back, DeviceOp, FIRST_ESPI, FIRST_LPI, FIRST_SPI, Frame, GuestOp, GuestShape, Held,
    HeldIrq, IccReg, Key, Kind, MAX_DEVICES, MAX_ESPIS, MAX_LIST_REGISTERS, MAX_LPIS, MAX_PRIORITY,
    MAX_RAM, MAX_SPIS, MAX_VCPUS, NoMemory, PRIORITY_STEP, PRIVATE_COUNT, PeOp, RAM_STEP,
    SGI_COUNT, SPI_STEP, interrupt_count, is_list_register_count, key_at, key_of, place_of,
};
pub use gic_bits::{Field, has_bit, put_bit};
pub use laws::{cause_bits, device_bits, release_bits};
pub use places::{ACTIVE_BY_NONE, HELD_BY_NONE, LINE, RAISE, RISE, SOFT, WIRE_DOWN, WIRE_UP};
pub use record::{Group, Irq, Route, pending, ripe, target_in};
pub use release::{active_mask, cause_mask};
pub use word::{pack, unpack};
