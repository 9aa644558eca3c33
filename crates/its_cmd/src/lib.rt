//! The commands of an ITS, from their doublewords and back, and the word that keeps how far it has read their queue and who acts
//! for it.
#![tactic(auto)]

mod command;
mod field;
mod queue;

pub use command::{BadCommand, Command, decode, encode, only_fields_matter};
pub use floor_words::{FIRST_LPI, GuestShape, Key, MAX_LPIS, NoMemory};
pub use queue::{
    ACTORS, COMMAND_BYTES, MAX_QUEUE_BYTES, PAGE_BYTES, QueueWord, advance, limits_are_defined,
    pack, unpack,
};
