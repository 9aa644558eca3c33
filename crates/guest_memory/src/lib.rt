//! What the GIC reads of the guest's memory: where the guest has it, and how it comes to the GIC's own memory before it is read.
#![tactic(auto)]

mod access;
mod base;
mod memory;
mod reads;
mod wants;

pub use access::Access;
pub use base::{Base, Bases, MEMORY_BYTES, VCPUS};
pub use memory::{GuestMemory, copy};
pub use wants::{MOST_WANTED, NO_WANTS, SPANS, Span, Wants, wanted};
