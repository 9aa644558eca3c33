//! The register's part of a write of the ITS, and the commands after it.
ghost use Rattle.std.specs.Prelude.{◌≡◌, ◌↔◌, ◌≤◌, ℕ, List, [], ◌++◌, length, IsTrue, IfOk, IfSome, IfNone, Some};
ghost use Rattle.std.specs.List.{list_all};
ghost use Rattle.history_commands.specs.Words.{IsShape};
ghost use Rattle.history_commands.specs.Calls.{Happened, HandsOut, Makes, FitsIts, its_events as its_events_of, its_places};
ghost use Rattle.history_commands.specs.GicImap.Map.{decoded as its_decoded};
ghost use Rattle.history_commands.specs.HistoryCalls.Counted.{IsCounted, IsUncounted};
ghost use Rattle.history_commands.specs.HistoryCalls.Exact.{is_good};
ghost use Rattle.history_commands.specs.HistoryCalls.Found.{found_by};
ghost use Rattle.history_commands.specs.Mapped.{mapped_by, targets_by};
ghost use Rattle.history_commands.specs.Written.{IsWritten};
ghost use Rattle.history_commands.specs.Writing.{is_of_its as is_of_its_in, may_be_written as may_be_written_in, IsWrittenAt, IsRegisterMade};

use crate::follow::follows;
use crate::register::{are_read, its_events, its_start};
use history_calls::{
    Event, Found, Frame, GuestOp, GuestShape, ItsRegRef as ItsRef, ListOf, Made, Operation,
    QueueChange, is_beside, is_same_found, its_access, word_at,
};
use std::alloc::{AllocError, Global};

/// Whether a write of a register can have an event.
fn is_of_its(event: &Event) -> bool
    ensures { result ≡ is_of_its_in event.now }
{
    matches!(
        *event,
        Event::Put { .. }
            | Event::Queue {
                change: QueueChange::Runs,
                ..
            }
    )
}

/// Whether it can, or the event is not named.
fn may_be_written(actor: u32, event: &Event) -> bool
    ensures { result ≡ may_be_written_in (Some actor) event.now }
{
    is_beside(Some(actor), event) || is_of_its(event)
}

/// Whether an event is this one, which a write of a register can have.
fn is_same_event(one: &Event, other: &Event) -> bool
    requires { IsTrue (is_of_its_in one.now) }
    ensures { IsTrue result ↔ (one.now ≡ other.now) }
{
    match (*one, *other) {
        (Event::Put { word: a, value: v }, Event::Put { word: b, value: w }) => a == b && v == w,
        (
            Event::Queue {
                offset: a,
                change: QueueChange::Runs,
            },
            Event::Queue {
                offset: b,
                change: QueueChange::Runs,
            },
        ) => a == b,
        _ => false,
    }
}

/// Whether such an event handed out what is there, as a piece found it.
fn hands_out(piece: &[Made], event: &Event, found: &Found) -> bool
    requires { IsTrue (is_of_its_in event.now) }
    ensures { IsTrue result ↔ HandsOut (found_by piece.now) event.now found.now }
{
    match *event {
        Event::Put { word, .. } => {
            let value = word_at(piece, word);
            is_same_found(found, &Found::Word { value })
        }
        _ => is_same_found(found, &Found::Nothing),
    }
}

/// Whether an event that was made is this one, and handed out what is there.
fn is_so(piece: &[Made], made: &Made, event: &Event) -> bool
    requires { IsTrue (is_of_its_in event.now) }
    ensures { IsTrue result ↔ ((event.now ≡ made.now.event) × HandsOut (found_by piece.now) event.now made.now.found) }
{
    is_same_event(event, &made.event) && hands_out(piece, event, &made.found)
}

/// How many of these events the named ones of a piece are, from the first on, where each hands out what is there. None where
/// they are others, or one hands out something else.
fn count_written(actor: u32, piece: &[Made], events: &[Event]) -> Option<usize>
    requires { IsTrue (list_all is_of_its_in events.now) }
    ensures some { IfSome result (IsCounted (Some actor) (found_by piece.now) events.now piece.now) }
    ensures none { IfNone result (IsUncounted (Some actor) (found_by piece.now) events.now piece.now) }
{
    let mut count = 0;
    for made in piece {
        if is_beside(Some(actor), &made.event) {
            continue;
        }
        if count >= events.len() || !is_so(piece, made, &events[count]) {
            return None;
        }
        count += 1;
    }
    Some(count)
}

/// Whether the named events of a piece are these, and hand out what is there.
fn are_these(actor: u32, piece: &[Made], events: &[Event]) -> bool
    requires { IsTrue (list_all is_of_its_in events.now) }
    ensures { IsTrue result ↔ IsRegisterMade (Some actor) (found_by piece.now) events.now piece.now }
{
    match count_written(actor, piece, events) {
        Some(count) => count == events.len(),
        None => false,
    }
}

/// Whether a piece is the register's part of a write of the ITS.
fn is_register_made(
    alloc: Global,
    shape: &GuestShape,
    actor: u32,
    reference: ItsRef,
    value: u64,
    piece: &[Made],
) -> Result<bool, AllocError>
    requires { FitsIts reference (Some value) }
    ensures { IfOk result (λ made. IsTrue made ↔ Makes (Some actor) (found_by piece.now) (its_events_of shape.now (found_by piece.now) reference (Some value)) (its_places shape.now reference (Some value)) [] piece.now) }
{
    let events = its_events(alloc, shape, piece, reference, value)?;
    if !are_these(actor, piece, events.as_slice()) {
        return Ok(false);
    }
    Ok(are_read(shape, piece, reference))
}

/// Whether the register is written in the first of two pieces, and the commands follow in the second.
fn is_written_at(
    alloc: Global,
    shape: &GuestShape,
    done: &[[u64; 4]],
    commands: &[ListOf<Option<u32>>],
    actor: u32,
    reference: ItsRef,
    value: u64,
    is_open: bool,
    written: &[Made],
    later: &[Made],
) -> Result<bool, AllocError>
    requires shape { IsShape shape.now }
    requires fits { FitsIts reference (Some value) }
    ensures { IfOk result (λ made. (offset size : ℕ) → reference ≡ its_decoded offset size → IsTrue made ↔ IsWrittenAt shape.now (mapped_by shape.now done.now) (targets_by commands.now) actor offset size value is_open written.now later.now) }
{
    let is_made = is_register_made(alloc, shape, actor, reference, value, written)?;
    if !is_made {
        return Ok(false);
    }
    let start = its_start(shape, written, reference, value);
    follows(alloc, shape, done, commands, actor, is_open, start, later)
}

/// How many events of a piece come before the first one that no write of a register can have.
fn reach(actor: u32, piece: &[Made]) -> usize
    ensures within { result ≤ length piece.now }
    ensures all { (before after : List Happened) → piece.now ≡ before ++ after → IsTrue (list_all (λ happened. may_be_written_in (Some actor) happened.event) before) → length before ≤ result }
{
    for index in 0..piece.len() {
        let made = &piece[index];
        if !may_be_written(actor, &made.event) {
            return index;
        }
    }
    piece.len()
}

/// Whether the register is written and the commands follow, where the ITS was taken. The register's part may end after any event of it, or after
/// reads, so each is tried.
pub(crate) fn is_written(
    alloc: Global,
    shape: &GuestShape,
    done: &[[u64; 4]],
    commands: &[ListOf<Option<u32>>],
    actor: u32,
    offset: u32,
    size: u32,
    value: u64,
    is_open: bool,
    piece: &[Made],
) -> Result<bool, AllocError>
    requires shape { IsShape shape.now }
    requires good { IsTrue (is_good shape.now (Operation.Access (GuestOp.Mem Frame.Its offset size (Some value)))) }
    ensures { IfOk result (λ written. IsTrue written ↔ IsWritten shape.now (mapped_by shape.now done.now) (targets_by commands.now) actor offset size value is_open piece.now) }
{
    let reference = its_access(offset, size, Some(value));
    let most = reach(actor, piece);
    for cut in 0..most + 1 {
        let written = &piece[..cut];
        let later = &piece[cut..];
        let is_made = is_written_at(
            alloc, shape, done, commands, actor, reference, value, is_open, written, later,
        )?;
        if is_made {
            return Ok(true);
        }
    }
    Ok(false)
}
