//! The outside of the product: where its input comes from, and where its output goes.
//!
//! A [`Source`] and a [`Sink`] have a written meaning: the bytes that are left or were taken, where
//! the object tells them, and a count of faults. What is generic over them is proved for every
//! source and sink, and can answer a fault only where that count rose.
#![tactic(auto)]

mod fault;
mod gate;
mod memory;
mod reading;
mod sinks;
mod sources;
mod standard;
mod sure;
mod unread;
mod writing;

pub use fault::Failed;
pub use floor_words::{DeviceOp, Frame, GuestOp, IccReg, Key, ListOf, NoMemory, PeOp};
pub use gate::{Gate, OpenGate};
pub use memory::{MemSink, MemSource};
pub use reading::{Bytes, ReadError, read_all};
pub use sinks::Sink;
pub use sources::Source;
pub use standard::{StdSink, StdSource};
pub use sure::{SureSink, SureSource};
pub use writing::write_all;
