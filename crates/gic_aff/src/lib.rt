//! Which vCPUs an affinity and the write of an SGI name.
#![tactic(auto)]

mod affinity;
mod sgi;

pub use affinity::vcpu_of;
pub use floor_words::{
    Back, DeviceOp, Field, Frame, Group, GuestOp, GuestShape, HELD_BY_NONE, IccReg, Irq, Key, Kind,
    ListOf, MAX_LIST_REGISTERS, RAISE, Route, SGI_COUNT, WIRE_DOWN, WIRE_UP, active_mask,
    cause_mask, has_active_state, has_bit, interrupt_count, key_at, key_of, pack, pending,
    place_of, put_bit, ripe, target_in,
};
pub use sgi::{Targets, sgi_intid, sgi_targets};
