//! Calls in progress that set EnableLPIs, write registers of the ITS or are message-signalled interrupts, judged like all others: when
//! what they made is the call, and when it can still become it.
#![tactic(auto)]

mod calls;
mod laws;
mod noted;
mod rise;
mod signal;

pub use calls::{call_begun, call_ended};
pub use history_commands::{
    DeviceOp, Enables, Event, Found, Frame, GuestOp, GuestShape, IccReg, Irq, Key, Kind, ListOf,
    Made, Operation, Place, PlainWord, Touching, are_records, is_same_found, opening_irq,
};
pub use laws::{
    calls_are_placed, enabling_calls_are_exact, notes_go_on, signalling_calls_are_exact,
};
pub use noted::{Noted, Seen};
