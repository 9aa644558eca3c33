//! The port of one thread: all actors of a scenario make their atomic steps through it, one after the other.
#![tactic(auto)]

mod drain;
mod guest;
mod guest_port;
mod its_home;
mod port;
mod rule;
mod seq_port;

pub use guest::GuestPort;
pub use port::SeqPort;
pub use port_ops::{
    Answer, COMMAND_BYTES, Command, CoreStep, CtlrWord, Enables, EndWords, IdealGuest, ItsTables,
    Local, PlainWord, Port as CorePort, Reg, RegRef, Touching, VcpuWord, WordId, decode, index_bit,
    index_bits, index_words, key_of_bit, place_of_plain, place_of_word, word_at, word_count,
};
pub use scn_base::{
    Actor, DeviceOp, Frame, GuestOp, GuestShape, GuestSpec, IccReg, Key, Kind, ListOf, LrList,
    Mode, NoMemory, Preset, PresetList, Scenario, is_good_op, key_of, pending, target_in, unpack,
};
