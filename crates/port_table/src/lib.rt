//! The port of many threads: each actor of a scenario has a port of its own over words that all share.
#![tactic(auto)]

mod calls;
mod guest;
mod laws;
mod port;
mod rule;
mod shared;
mod steps;
mod threads;
mod view;

pub use guest::{GuestRoot, GuestTable};
pub use laws::guests_apart;
pub use port::TablePort;
pub use port_ops::{CoreStep, GuestWords, Port as CorePort, WordId};
pub use rule::ManyThreads;
pub use scn_base::{Actor, GuestShape, IccReg, Key, Mode, Preset, Scenario, key_of, unpack};
pub use shared::{RootSeat, SharedWords};
pub use threads::{finish, join, split, start};
pub use view::{Account, View};
