//! The words that the actors of a guest share: which there are, where each of them stands, and what it says.
#![tactic(auto)]

mod line;
mod word_id;
mod words;

pub use ideal_guest::{
    Actor, Answer, Answers, Back, COMMAND_BYTES, Candidate, Command, CpuRec, DeviceOp, Enables,
    End, Ends, Entry, Group, GuestOp, GuestShape, GuestSpec, Guests, HELD_BY_NONE, IccReg,
    IdealGuest, Irq, ItsReg, ItsRegRef, ItsTables, Key, ListOf, LrList, MAX_LIST_REGISTERS, Moved,
    NoMemory, PeOp, PlainWord, QueueWord, RAISE, RunOut, Targets, Touching, WIRE_DOWN, WIRE_UP,
    acknowledged, active_mask, cause_mask, cpu_written, earlier, enables_in, encode,
    has_active_state, has_bit, interrupt_count, intid_deactivated, irq_pack, irq_unpack, irqs,
    its_decode, key_at, level_activated, listens, may_reach, may_take, opening_cpu,
    opening_enables, pending, place_of_plain, plain_count, queue_pack, queue_unpack, ripe,
    target_in,
};
pub use line::{Entered, Line, pack_line, unpack_line};
pub use word_id::{
    LINES, WORD_BITS, WordId, index_bit, index_bits, index_words, key_of_bit, line_count,
    place_of_word, word_at, word_count,
};
pub use words::{CtlrWord, VcpuWord};
