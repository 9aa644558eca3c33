//! Traces: what the actors of a guest did, event by event, and how a trace is read from a JSON value.
#![tactic(auto)]

mod act;
mod call;
mod event;
mod fault;
mod field;
mod name;
mod part;
mod place;
mod read;
mod trace;
mod what;

pub use field::ActField;
pub use floor_calls::{Actor, enables_in, target_in};
pub use place::Place;
pub use read::{MAX_EVENTS, read_trace};
pub use scn_read::{Fault, ReadRefusal};
pub use trace::{Act, EventList, Trace, TraceCall, TraceEvent};
pub use what::What;
