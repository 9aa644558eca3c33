//! A checker of recorded runs: whether what the actors of a guest did, event by event, can be what the ideal controller does with every change in time.
#![tactic(auto)]

mod its;
mod known;
mod notes;
mod play;
mod seen;
mod signal;
mod verdict;

pub use trace_told::{EventList, NoMemory, ReadRefusal, Trace, TraceEvent, Verdict, read_trace};
pub use verdict::check;
