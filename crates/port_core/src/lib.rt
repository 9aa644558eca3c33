//! The core: what each atomic step does to one word that the actors of a guest share, and to its actor's own state.
#![tactic(auto)]

mod access;
mod actor;
mod advance;
mod at_list;
mod atomic;
mod claim;
mod end;
mod laws;
mod local;
mod owed;
mod port;
mod run;
mod step;

pub use actor::{actor_at, actor_count, guest_of, number_of};
pub use at_list::{AtIrq, AtList};
pub use atomic::Atomic;
pub use core_words::{
    Actor as GuestActor, Answer, Answers, COMMAND_BYTES, Command, CpuRec, CtlrWord, DeviceOp,
    Enables, End as GuestEnd, Ends, Entered, GuestOp, GuestShape, GuestSpec, Guests, IdealGuest,
    Irq, ItsReg as Reg, ItsRegRef as RegRef, ItsTables, LINES, Line, ListOf, LrList, NoMemory,
    PeOp, PlainWord, QueueWord, RunOut, Touching, VcpuWord, WordId, enables_in, encode, index_bit,
    index_bits, index_words, interrupt_count, irq_pack as pack, irq_unpack, irqs,
    its_decode as decode, key_at, key_of_bit, line_count, opening_cpu, opening_enables, pack_line,
    pending, place_of_plain, place_of_word, plain_count, queue_pack, queue_unpack, ripe,
    unpack_line, word_at, word_count,
};
pub use end::{EndWords, GuestWords, WordList};
pub use laws::{opening_is_sound, parts_join, runs_are_sound, runs_join, steps_keep_sound};
pub use local::{Local, Phase};
pub use owed::{CAND_WORDS, Cands, MarkSet, NO_VCPUS, with_all, with_vcpu, without_vcpu};
pub use port::Port;
pub use run::{Entry, Made};
pub use step::CoreStep;
