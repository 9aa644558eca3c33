//! Writes of registers of the ITS that take it: whether what such a call made is the call, and whether it can still become it.
ghost use Rattle.std.specs.Prelude.{◌≡◌, ◌↔◌, ◌⊎◌, true, IsTrue, IfOk, Some};
ghost use Rattle.history_commands.specs.Words.{IsShape};
ghost use Rattle.history_commands.specs.Calls.{ItsBegin, takes_turn};
ghost use Rattle.history_commands.specs.GicImap.Map.{decoded as its_decoded};
ghost use Rattle.history_commands.specs.GicCall.declared.event.Found.TheVariants.{Nothing};
ghost use Rattle.history_commands.specs.HistoryCalls.Exact.{is_good};
ghost use Rattle.history_commands.specs.Mapped.{mapped_by, targets_by};
ghost use Rattle.history_commands.specs.Written.{IsItsMade, IsWritten};
ghost use Rattle.history_commands.specs.Opened.{IsItsBegun, IsWriteBegun};

use crate::begun::is_write_begun;
use crate::named::from_named;
use crate::written::is_written;
use history_calls::{Event, Found, Frame, GuestOp, GuestShape, ListOf, Made, Operation};
use std::alloc::{AllocError, Global};

/// Whether the ITS is taken.
fn is_taken(made: &Made) -> bool
    ensures { IsTrue result ↔ ((made.now.event ≡ ItsBegin) × (made.now.found ≡ Nothing)) }
{
    matches!((made.event, made.found), (Event::ItsBegin, Found::Nothing))
}

/// Whether what an actor's call made is the call: a write of a register of the ITS that takes it. Its events are given with what each
/// handed out, oldest first; with the doublewords of the commands that were done before it took the ITS, and as each of its own commands
/// began with the vCPUs that the LPIs were for then, in rising INTID. `AllocError` where memory is refused.
pub fn its_ended(
    alloc: Global,
    shape: &GuestShape,
    done: &[[u64; 4]],
    commands: &[ListOf<Option<u32>>],
    actor: u32,
    offset: u32,
    size: u32,
    value: u64,
    piece: &[Made],
) -> Result<bool, AllocError>
    requires shape { IsShape shape.now }
    requires good { IsTrue (is_good shape.now (Operation.Access (GuestOp.Mem Frame.Its offset size (Some value)))) }
    requires turn { IsTrue (takes_turn shape.now (its_decoded offset size) (Some value)) }
    ensures value { IfOk result (λ ended. IsTrue ended ↔ IsItsMade shape.now (mapped_by shape.now done.now) (targets_by commands.now) actor offset size value piece.now) }
{
    match from_named(Some(actor), piece).split_first() {
        None => Ok(false),
        Some((first, rest)) => {
            if !is_taken(first) {
                return Ok(false);
            }
            is_written(
                alloc, shape, done, commands, actor, offset, size, value, false, rest,
            )
        }
    }
}

/// Whether what follows the taking of the ITS is the beginning of the register's part, or all of it and then commands.
fn goes_on(
    alloc: Global,
    shape: &GuestShape,
    done: &[[u64; 4]],
    commands: &[ListOf<Option<u32>>],
    actor: u32,
    offset: u32,
    size: u32,
    value: u64,
    rest: &[Made],
) -> Result<bool, AllocError>
    requires shape { IsShape shape.now }
    requires good { IsTrue (is_good shape.now (Operation.Access (GuestOp.Mem Frame.Its offset size (Some value)))) }
    requires turn { IsTrue (takes_turn shape.now (its_decoded offset size) (Some value)) }
    ensures { IfOk result (λ on. IsTrue on ↔ (IsWriteBegun shape.now actor offset size value rest.now ⊎ IsWritten shape.now (mapped_by shape.now done.now) (targets_by commands.now) actor offset size value true rest.now)) }
{
    if is_write_begun(shape, actor, offset, size, value, rest) {
        return Ok(true);
    }
    is_written(
        alloc, shape, done, commands, actor, offset, size, value, true, rest,
    )
}

/// Whether what an actor's call made so far can still become such a write, whatever it and the others do from here on, of the same. `AllocError`
/// where memory is refused.
pub fn its_begun(
    alloc: Global,
    shape: &GuestShape,
    done: &[[u64; 4]],
    commands: &[ListOf<Option<u32>>],
    actor: u32,
    offset: u32,
    size: u32,
    value: u64,
    piece: &[Made],
) -> Result<bool, AllocError>
    requires shape { IsShape shape.now }
    requires good { IsTrue (is_good shape.now (Operation.Access (GuestOp.Mem Frame.Its offset size (Some value)))) }
    requires turn { IsTrue (takes_turn shape.now (its_decoded offset size) (Some value)) }
    ensures value { IfOk result (λ begun. IsTrue begun ↔ IsItsBegun shape.now (mapped_by shape.now done.now) (targets_by commands.now) actor offset size value piece.now) }
{
    match from_named(Some(actor), piece).split_first() {
        None => Ok(true),
        Some((first, rest)) => {
            if !is_taken(first) {
                return Ok(false);
            }
            goes_on(
                alloc, shape, done, commands, actor, offset, size, value, rest,
            )
        }
    }
}
