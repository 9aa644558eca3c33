//! What the threads of a run do: a PE that takes vCPUs, each of which enters it, does operations of its script and leaves it, and
//! a device that does the operations of its own.
#![tactic(auto)]

mod device;
mod naming;
mod pe;
mod rider;
mod travel;
mod trip;
mod visit;
mod worker;

pub use device::DeviceRun;
pub use gic_io::Gate;
pub use naming::Naming;
pub use pe::PeRun;
pub use pe_place::Shelved;
pub use port_table::{
    RootSeat, SharedWords, finish, join as port_table_join, split as port_table_split, start,
};
pub use rider::{Loner, Rider, Turns};
pub use trip::Trip;
pub use vcpu_shelf::{
    Shelf, ShelfSeat, close, join as vcpu_shelf_join, of, split as vcpu_shelf_split,
};
pub use visit::Passes;
pub use worker::{Worker, run_all};
