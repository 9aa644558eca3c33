//! Priorities, and the record of a vCPU's CPU interface.
#![tactic(auto)]

mod access;
mod candidate;
mod cpu;
mod delivery;
mod laws;
mod levels;
mod priority;
mod registers;
mod signal;

pub use access::{cpu_written, intid_deactivated};
pub use candidate::{Candidate, earlier};
pub use cpu::CpuRec;
pub use delivery::{deliverable, listens};
pub use floor_words::{Group, Irq, ListOf, Route, interrupt_count, key_at, place_of};
pub use laws::{
    acknowledge_preempts, acknowledged_once, end_undoes_acknowledge, first_is_least,
    first_is_there, group_priority_is_prefix, interface_stays, interrupts_stay,
    last_point_keeps_no_bit, mask_is_monotone, running_when_idle, spurious_exactly,
};
pub use levels::LEVELS;
pub use priority::{FIRST_SPECIAL, IDLE_PRIORITY, SPURIOUS, group_priority, running, signalled};
pub use registers::{read_plain, write_plain};
pub use signal::{
    acknowledged, dir_deactivates, highest_pending, intid_or_spurious, level_activated,
    priority_dropped,
};
