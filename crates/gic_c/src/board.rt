//! A machine with what C fed for a call of it: its calls take any numbers.
ghost use Rattle.std.specs.Prelude.{◌≡◌, ◌<◌, IfOk};
ghost use Rattle.vm_saved.specs.GicVm.State.{MachineState};
ghost use Rattle.gic_c.specs.Feed.{no_feed};
ghost use Rattle.gic_c.specs.Board.{forgotten, opened_with};

use crate::feed::Feed;
use std::alloc::{AllocError, Global};
use vm_saved::Machine;

/// A machine, how many vCPUs it has, and what was fed.
#[derive(Drop)]
pub(crate) struct Board {
    pub(crate) machine: Machine,
    pub(crate) vcpus: u32,
    pub(crate) feed: Feed,
}

impl Board {
    /// A machine for which nothing was fed.
    pub(crate) fn new(alloc: Global, machine: Machine, vcpus: u32) -> Result<Board, AllocError>
        ensures { IfOk result (λ board. board ≡ opened_with machine vcpus) }
    {
        Ok(Board {
            machine,
            vcpus,
            feed: Feed::new(alloc)?,
        })
    }

    /// Drops what was fed.
    pub(crate) fn forget(&mut self)
        ensures { self.new ≡ forgotten self.old }
    {
        self.feed.clear();
    }
}
