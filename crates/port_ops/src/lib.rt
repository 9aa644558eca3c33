//! What both ports of the core share: the one atomic operation of a step, how a guest opened, and the words of a guest as
//! it opens and as it ends.
#![tactic(auto)]

mod doing;
mod drain;
mod opened;
mod table;
mod words;

pub use doing::Doing;
pub use drain::closed_words;
pub use opened::{Opened, local_at_opening};
pub use port_core::{
    Answer, Answers, Atomic, COMMAND_BYTES, Command, CoreStep, CpuRec, CtlrWord, DeviceOp, Enables,
    EndWords, Entry, GuestActor as Actor, GuestOp, GuestWords, Guests, IdealGuest, ItsTables,
    Local, LrList, Made, NO_VCPUS, NoMemory, PeOp, PlainWord, Port, Reg, RegRef, RunOut, Touching,
    VcpuWord, WordId, WordList, actor_at, decode, encode, guest_of, index_bit, index_bits,
    index_words, key_of_bit, number_of, opening_cpu, place_of_plain, place_of_word, word_at,
    word_count,
};
pub use table::{Telling, Tells, operate};
pub use words::{guest_words, opening_words};
