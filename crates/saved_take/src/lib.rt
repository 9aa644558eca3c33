//! What is saved of a guest of the ideal controller, between two steps of a run.
#![tactic(auto)]

mod law;
mod rec;
mod registers;
mod run;
mod stored;
mod whole;

pub use law::{standing_tells_back, states_tell_back, wires_tell_back};
pub use run::saved;
pub use saved_guest::{
    GuestSpec, GuestState, IdealGuest, ListOf, MovedWire, NoMemory, Saved, StateList,
    interrupt_count,
};
pub use stored::is_stored;
pub use whole::taken;
