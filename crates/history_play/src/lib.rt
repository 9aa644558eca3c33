//! A plain program that plays a history of the ideal controller from a guest's opening: whether each of its moments is
//! allowed, and whether it is fresh.
#![tactic(auto)]

mod after;
mod can;
mod changes;
mod doings;
mod laws;
mod leaving;
mod track;
mod verdict;
mod whole;

pub use after::follow;
pub use can::can_happen;
pub use history_calls::{
    Made, events_of, has_bit, is_beside, is_plain, is_same_found, reads, split,
};
pub use history_check::{
    Candidate, DeviceOp, Doing, Event, Found as CallFound, Frame, Group, GuestOp, GuestShape,
    GuestSpec, IccReg, Irq, Key, Kind, ListOf, Moment, NoMemory, Operation, Place, PlainWord,
    Preset, PresetList, QueueChange, State, Table, Touching, Track, asks_first, baser, baser_after,
    comes_first, creadr, dist_ctlr, extract, interrupt_count, its_ctlr, key_at, key_in,
    opening_irq, queue_address, takes_commands,
};
pub use laws::histories_are_allowed;
pub use track::{begins, ends, happens, opening_track};
pub use verdict::{Cause, judge};
pub use whole::{Refusal, check};
