//! How a guest opens: the records of its interrupts and CPU interfaces, its group enables, and its plain words.
#![tactic(auto)]

mod cpu;
mod plain;
mod records;

pub use cpu::{OPEN_BPR0, OPEN_BPR1, OPEN_PMR, cpus, opening_cpu, opening_enables};
pub use gic_guest::{
    Answer, Answers, End, Ends, GuestSpec, Guests, LrList, Preset, PresetList, RunOut,
};
pub use plain::{PlainWord, place_of_plain, plain_at, plain_count, plains};
pub use records::{irqs, opening_irq, openings_are_valid, records_are_apart};
