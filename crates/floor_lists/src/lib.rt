//! The floor of list registers: passes on gic_lr, gic_ich, gic_icv, vcpu_refill.
#![tactic(auto)]

pub use gic_icv::{
    FIRST_LPI, Field, Frame, Group, Irq, Key, Kind, NoMemory, Outcome, Route, TrapCause, access,
    has_bit, target_in, unpack,
};
pub use vcpu_refill::{Choice, Chooser, Fill, Offer, fresh};
