//! The handle that C holds.
ghost use Rattle.std.specs.Prelude.{◌==◌, IsTrue, IsSome};
ghost use Rattle.gic_c.specs.Mark.{open_mark};

mod keep;

use crate::slot::RvSlot;

/// A machine as C holds it. C gives the room, as zeros, and neither reads, copies nor changes it.
#[repr(C)]
#[derive(Drop)]
pub struct RvMachine {
    mark: u64,
    slot: RvSlot,
    ghost held: { IsTrue (mark == open_mark) → IsSome slot.value },
}
