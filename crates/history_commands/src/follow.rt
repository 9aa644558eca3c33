//! Calls that take the ITS, event by event.
ghost use Rattle.std.specs.Prelude.{◌≡◌, ◌↔◌, IsTrue, IfOk};
ghost use Rattle.history_commands.specs.Words.{IsShape};
ghost use Rattle.history_commands.specs.Mapped.{mapped_by, targets_by};
ghost use Rattle.history_commands.specs.Stage.{Follow};
ghost use Rattle.history_commands.specs.Followed.{stage_from};

use crate::its::Its;
use crate::walk::Walk;
use history_calls::{GuestShape, ListOf, Made, is_beside};
use std::alloc::{AllocError, Global};

/// Whether the events of a piece may follow one after the other in a call of a vCPU that has the ITS, whose maps are those after these
/// commands, and for whose commands LPIs were for these vCPUs, as each began, in rising INTID. Commands are taken with the ITS so, or none
/// are; and the ITS is given back at last, or of an open call may yet be. `AllocError` where memory is refused.
pub(crate) fn follows(
    alloc: Global,
    shape: &GuestShape,
    done: &[[u64; 4]],
    commands: &[ListOf<Option<u32>>],
    actor: u32,
    is_open: bool,
    start: Option<Its>,
    piece: &[Made],
) -> Result<bool, AllocError>
    requires { IsShape shape.now }
    ensures { IfOk result (λ ok. IsTrue ok ↔ Follow shape.now (targets_by commands.now) actor is_open (stage_from (mapped_by shape.now done.now) start) piece.now) }
{
    let mut walk = Walk::open(alloc, shape, done, start)?;
    for made in piece {
        if is_beside(Some(actor), &made.event) {
            walk.note(made)?;
        } else if !walk.take(alloc, shape, commands, made)? {
            return Ok(false);
        }
    }
    Ok(is_open || walk.is_over())
}
