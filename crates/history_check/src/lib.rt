//! A plain program that checks histories of the ideal controller: its state while interrupts stand at CPU interfaces, which
//! events are allowed there, and the clauses of fresh.
#![tactic(auto)]

mod access;
mod allowed;
mod coming;
mod excuse;
mod fetch;
mod fresh;
mod happen;
mod history;
mod moves;
mod shown;
mod standing;
mod state;
mod track;

pub use coming::{is_awaited, is_to_come, key_in};
pub use excuse::{asks_first, comes_first, is_fresh_at_acknowledge};
pub use fetch::takes_commands;
pub use floor_histories::{
    Candidate, DeviceOp, Enables, Event, Found, Frame, Group, GuestOp, GuestShape, GuestSpec,
    IccReg, Irq, Key, Kind, ListOf, Moment, NoMemory, Operation, Place, PlainWord, Preset,
    PresetList, QueueChange, SGI_COUNT, Table, Touching, baser, baser_after, creadr, dist_ctlr,
    extract, interrupt_count, its_ctlr, key_at, key_of, opening_irq, part_bits, place_of,
    queue_address,
};
pub use standing::Standing;
pub use state::State;
pub use track::{Changes, Doing, Leaving, Track, Turn};
