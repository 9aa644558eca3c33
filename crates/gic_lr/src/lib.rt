//! The list registers of a PE, packed in words.
#![tactic(auto)]

mod entry;
mod status;

pub use entry::{LrEntry, LrState, pack, unpack, with_state};
pub use floor_words::{
    Back, FIRST_ESPI, FIRST_LPI, Field, Frame, GuestOp, Held, HeldIrq, IccReg, Key, Kind,
    MAX_ESPIS, MAX_LIST_REGISTERS, NoMemory, has_bit, key_of, pack as irq_pack, pending, put_bit,
    target_in, unpack as irq_unpack,
};
pub use status::{eisr, elrsr};
