//! A machine as C has it: a pointer, and nothing that names what is behind it.
ghost use Rattle.std.specs.Prelude.{◌≡◌, Option, Some, None, IsSome};
ghost use Rattle.gic_c.specs.declared.board.Board.{Board};

use crate::board::Board;
use crate::loose::Loose;
use std::alloc::Global;
use std::marker::Model;
use std::ptr::null_mut;

/// What C sees behind the pointer: nothing that it may use.
#[repr(C)]
#[derive(Drop)]
pub struct RvBody {
    reserved: u64,
}

/// A machine in a block of its own, or nothing. It owns the machine; let go, it frees nothing, since C holds it.
#[repr(C)]
#[derive(Drop)]
pub struct RvSlot {
    at: *mut RvBody,
    alloc: Global,
    pub ghost value: { Option Board },
}

impl Model for RvSlot {
    ghost use Rattle.std.specs.Prelude.{Option};
    ghost use Rattle.gic_c.specs.declared.board.Board.{Board};
    ghost use Rattle.gic_c.specs.Owned.{owned};

    ghost also_owns = { λ s. owned s.alloc s.at s.value };
}

impl RvSlot {
    /// Nothing.
    pub(crate) fn empty(alloc: Global) -> RvSlot
        ensures { result.value ≡ None }
    {
        RvSlot {
            at: null_mut(),
            alloc,
        }
    }

    /// A machine.
    pub(crate) fn of_loose(board: Loose<Board, Global>) -> RvSlot
        ensures { result.value ≡ Some board.value }
    {
        let Loose { ptr, alloc } = board;
        RvSlot {
            at: ptr as *mut RvBody,
            alloc,
        }
    }

    /// The machine again.
    pub(crate) fn into_loose(self) -> Loose<Board, Global>
        requires { IsSome self.value }
        ensures { Some result.value ≡ self.value }
    {
        let RvSlot { at, alloc } = self;
        Loose {
            ptr: at as *mut Board,
            alloc,
        }
    }
}

// What it owns is a machine, which may go to another thread, with its block, which may be freed there.
unsafe impl Send for RvSlot {}
