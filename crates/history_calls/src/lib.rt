//! What a call in progress has to be, said of its own events: when they are the call, and when they can still become it.
#![tactic(auto)]

mod answers;
mod calls;
mod compare;
mod events;
mod found;
mod last;
mod laws;
mod made;
mod parts;
mod places;
mod records;
mod values;

pub use answers::is_plain;
pub use calls::{call_begun, call_ended};
pub use compare::{count_made, is_beside, is_same_event};
pub use events::events_of;
pub use floor_calls::{
    COMMAND_BYTES, CallPart, Command, DeviceOp, Enables, Event, FIRST_LPI, Field, Found, Frame,
    GuestOp, GuestShape, Half, IccReg, Irq, ItsReg, ItsRegRef, ItsTables, Key, Kind, ListOf,
    NoMemory, Operation, Place, PlainWord, QueueChange, Touching, baser_after, cbaser_after,
    config_of, extract, has_bit, its_access, offset_in, opening_irq, pending_address, queue_bytes,
    queue_decode, retries, split,
};
pub use found::is_same_found;
pub use last::{reads, word_at};
pub use laws::{calls_are_open, plain_calls_are_exact};
pub use made::Made;
pub use places::was_read;
pub use records::are_records;
pub use values::memory;
