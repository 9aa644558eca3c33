//! What callers that stand for a guest need: whether an actor is at rest, which they test before a call, a guest by itself to call
//! in, and the commands of its ITS.
#![tactic(auto)]

mod guest;
mod queue;
mod rest;

pub use guest::{one_guest, sgi, spi};
pub use queue::{
    CLEAR, DEVICE_ID, DISCARD, EVENT_ID, INT, INV, LPI, MAP_LPI, MAPC, MAPD, MAPTI, MOVI,
    OTHER_MAPC, SYNC, command_words,
};
pub use rest::{is_at_ease, is_off, is_settled, owes_nothing};
