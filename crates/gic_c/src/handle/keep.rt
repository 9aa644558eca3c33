//! What a handle has, and how that is taken out and put in.
ghost use Rattle.std.specs.Prelude.{◌≡◌, Some, None, is_some, box_value};
ghost use Rattle.std.specs.Option.{option_map};
ghost use Rattle.gic_c.specs.Handle.{board_of};

use super::RvMachine;
use crate::board::Board;
use crate::loose::Loose;
use crate::slot::RvSlot;
use std::alloc::Global;
use std::mem::replace;

/// The mark of a handle that has a machine. A handle with another mark, as one of zeros, is closed.
const OPEN: u64 = 0x7269_7376_616D_6579;
/// The mark of a handle that was closed here.
const CLOSED: u64 = 0;

/// What may go to another thread, as it is: nothing else is taken, so a handle may.
fn across<T: Send>(it: T) -> T
    ensures { result ≡ it }
{
    it
}

impl RvMachine {
    /// A handle without a machine.
    pub(crate) fn closed(alloc: Global) -> RvMachine
        ensures { board_of result ≡ None }
    {
        RvMachine {
            mark: CLOSED,
            slot: RvSlot::empty(alloc),
        }
    }

    /// A handle with a machine.
    fn open(board: Box<Board>) -> RvMachine
        ensures { board_of result ≡ Some board.value }
    {
        RvMachine {
            mark: OPEN,
            slot: RvSlot::of_loose(Loose::of(board)),
        }
    }

    /// Whether it has a machine.
    pub(crate) fn is_open(&self) -> bool
        ensures { result ≡ is_some (board_of self.now) }
    {
        self.mark == OPEN
    }

    /// Takes the machine out, if there is one; the handle is closed.
    pub(crate) fn take(&mut self, alloc: Global) -> Option<Box<Board>>
        ensures board { option_map box_value result ≡ board_of self.old }
        ensures closed { board_of self.new ≡ None }
    {
        let RvMachine { mark, slot } = replace(self, RvMachine::closed(alloc));
        if mark != OPEN {
            return None;
        }
        Some(slot.into_loose().into_box())
    }

    /// Puts a machine in.
    pub(crate) fn put(&mut self, board: Box<Board>)
        ensures { board_of self.new ≡ Some board.value }
    {
        *self = across(RvMachine::open(board));
    }
}
