//! Calls in progress that take the ITS and its commands: when what they made is the call, and what they note of their guest.
#![tactic(auto)]

mod begun;
mod fetch;
mod follow;
mod its;
mod known;
mod laws;
mod mapped;
mod named;
mod parts;
mod register;
mod touch;
mod walk;
mod writes;
mod written;

pub use history_calls::{
    DeviceOp, Enables, Event, FIRST_LPI, Found, Frame, GuestOp, GuestShape, IccReg, Irq, Key, Kind,
    ListOf, Made, Operation, Place, PlainWord, Touching, are_records, call_begun, call_ended,
    count_made, has_bit, is_plain, is_same_found, memory, opening_irq, pending_address, split,
    was_read, word_at,
};
pub use its::Its;
pub use laws::{
    commands_are_counted, commands_go_on, its_writes_are_exact, its_writes_may_go_on, maps_go_on,
    taking_calls_begin, taking_calls_end,
};
pub use named::{before_named, from_named, is_idle};
pub use writes::{its_begun, its_ended};
