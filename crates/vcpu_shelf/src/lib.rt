//! The shelf on which vCPUs wait that stand on no PE. The threads of the PEs share it without a lock: each place has one
//! atomic owner word, and a slot for what travels.
#![tactic(auto)]

mod closing;
mod opening;
mod putting;
mod rule;
mod scan;
mod seats;
mod shelf;
mod steps;
mod taking;
mod traveller;
mod view;
mod word;

pub use closing::close;
pub use opening::of;
pub use putting::put;
pub use rule::OneOwner;
pub use seats::{join, split};
pub use shelf::{Shelf, ShelfSeat};
pub use taking::take;
pub use traveller::{Taken, Traveller};
pub use view::{Deed, View};
pub use word::{FINISHED, FREE, STATES, TAKEN};
