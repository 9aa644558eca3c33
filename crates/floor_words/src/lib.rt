//! The floor of words: passes on gic_bits, gic_list, gic_base, gic_word.
#![tactic(auto)]

pub use gic_list::ListOf;
pub use gic_word::{
    Actor, Back, DeviceOp, FIRST_ESPI, FIRST_LPI, FIRST_SPI, Field, Frame, Group, GuestOp,
    GuestShape, HELD_BY_NONE, Held, HeldIrq, IccReg, Irq, Key, Kind, MAX_DEVICES, MAX_ESPIS,
    MAX_LIST_REGISTERS, MAX_LPIS, MAX_PRIORITY, MAX_RAM, MAX_SPIS, MAX_VCPUS, NoMemory,
    PRIORITY_STEP, PRIVATE_COUNT, PeOp, RAISE, RAM_STEP, Route, SGI_COUNT, SPI_STEP, WIRE_DOWN,
    WIRE_UP, active_mask, cause_mask, has_active_state, has_bit, interrupt_count,
    is_list_register_count, key_at, key_of, pack, pending, place_of, put_bit, ripe, target_in,
    unpack,
};
