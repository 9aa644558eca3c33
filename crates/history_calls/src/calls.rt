//! Calls in progress that neither take the ITS nor set EnableLPIs: whether what they made is the call, and whether it can
//! still become it.
ghost use Rattle.std.specs.Prelude.{◌≡◌, ◌↔◌, Option, IsTrue, IfOk, Bool};
ghost use Rattle.history_calls.specs.Words.{IsShape};
ghost use Rattle.history_calls.specs.Histories.{Call, vcpu_of as vcpu_that_is, IsEndedAs};
ghost use Rattle.history_calls.specs.LegalLists.Legal.{IsBegun};
ghost use Rattle.history_calls.specs.Exact.{is_plain as is_plain_in, is_doer as is_doer_of, is_good, are_records, HasRecords, Answers, AreReadBy, IsCallOf, IsFirst, IsMade, IsWholeBy};
ghost use Rattle.history_calls.specs.Found.{found_by, open_by};

use crate::answers::is_answer;
use crate::compare::count_made;
use crate::events::events_of;
use crate::made::Made;
use crate::places::{place_of, was_read};
use floor_calls::{GuestShape, Operation};
use std::alloc::{AllocError, Global};

/// The vCPU that an actor is, if it is one.
fn vcpu_of(shape: &GuestShape, actor: u32) -> Option<u32>
    ensures { result ≡ vcpu_that_is shape.now actor }
{
    if actor < shape.vcpus {
        Some(actor)
    } else {
        None
    }
}

/// Whether an actor is one that does so: a vCPU, or a device.
fn is_doer(shape: &GuestShape, actor: u32, operation: &Operation) -> bool
    ensures { result ≡ is_doer_of shape.now actor operation.now }
{
    match operation {
        Operation::Device { .. } => actor >= shape.vcpus,
        Operation::Access { .. } | Operation::Residence => actor < shape.vcpus,
    }
}

/// Whether two numbers are one.
fn are_one(one: usize, other: usize) -> bool
    ensures { IsTrue result ↔ (one ≡ other) }
{
    one == other
}

/// Whether the named events of a piece are the first ones of an operation's.
fn is_first(
    alloc: Global,
    shape: &GuestShape,
    actor: u32,
    operation: &Operation,
    piece: &[Made],
) -> Result<bool, AllocError>
    requires shape { IsShape shape.now }
    requires records { HasRecords shape.now piece.now }
    requires good { IsTrue (is_good shape.now operation.now) }
    requires plain { IsTrue (is_plain_in shape.now operation.now) }
    ensures { IfOk result (λ first. IsTrue first ↔ IsFirst shape.now actor (open_by piece.now) operation.now piece.now) }
{
    let events = events_of(alloc, shape, actor, piece, true, operation)?;
    let count = count_made(vcpu_of(shape, actor), piece, true, events.as_slice());
    Ok(count.is_some())
}

/// Whether they are all of an operation's.
fn is_whole(
    alloc: Global,
    shape: &GuestShape,
    actor: u32,
    operation: &Operation,
    piece: &[Made],
) -> Result<bool, AllocError>
    requires shape { IsShape shape.now }
    requires records { HasRecords shape.now piece.now }
    requires good { IsTrue (is_good shape.now operation.now) }
    requires plain { IsTrue (is_plain_in shape.now operation.now) }
    ensures { IfOk result (λ whole. IsTrue whole ↔ IsWholeBy shape.now actor (found_by piece.now) operation.now piece.now) }
{
    let events = events_of(alloc, shape, actor, piece, false, operation)?;
    match count_made(vcpu_of(shape, actor), piece, false, events.as_slice()) {
        Some(count) => Ok(are_one(count, events.len())),
        None => Ok(false),
    }
}

/// Whether the place that an operation reads was read, the last time as it is found.
fn is_read(shape: &GuestShape, operation: &Operation, piece: &[Made]) -> bool
    requires shape { IsShape shape.now }
    requires good { IsTrue (is_good shape.now operation.now) }
    requires plain { IsTrue (is_plain_in shape.now operation.now) }
    ensures { IsTrue result ↔ AreReadBy shape.now (found_by piece.now) operation.now piece.now }
{
    match place_of(shape, operation) {
        Some(place) => was_read(piece, place),
        None => true,
    }
}

/// Whether a piece is an operation with an answer.
fn is_made(
    alloc: Global,
    shape: &GuestShape,
    actor: u32,
    operation: &Operation,
    piece: &[Made],
    answer: Option<u64>,
) -> Result<bool, AllocError>
    requires shape { IsShape shape.now }
    requires records { HasRecords shape.now piece.now }
    requires good { IsTrue (is_good shape.now operation.now) }
    requires plain { IsTrue (is_plain_in shape.now operation.now) }
    ensures { IfOk result (λ made. IsTrue made ↔ IsMade shape.now actor (found_by piece.now) operation.now piece.now answer) }
{
    if !is_whole(alloc, shape, actor, operation, piece)? {
        return Ok(false);
    }
    if !is_read(shape, operation, piece) {
        return Ok(false);
    }
    Ok(is_answer(shape, actor, operation, piece, answer))
}

/// Whether what an actor's call made so far can still become the call, whatever it and the others do from here on: of an
/// operation that neither takes the ITS nor sets EnableLPIs. Its events so far are given with what each handed out, oldest
/// first. `AllocError` where memory is refused.
pub fn call_begun(
    alloc: Global,
    shape: &GuestShape,
    actor: u32,
    operation: &Operation,
    piece: &[Made],
) -> Result<bool, AllocError>
    requires shape { IsShape shape.now }
    requires records { IsTrue (are_records shape.now piece.now) }
    requires good { IsTrue (is_good shape.now operation.now) }
    requires plain { IsTrue (is_plain_in shape.now operation.now) }
    ensures value { IfOk result (λ begun. (call : Call) (signals : Bool) → IsCallOf operation.now piece.now call → IsTrue begun ↔ IsBegun signals shape.now actor call) }
{
    if !is_doer(shape, actor, operation) {
        return Ok(false);
    }
    is_first(alloc, shape, actor, operation, piece)
}

/// Whether what an actor's call made is the call, with this answer: of such an operation. `AllocError` where memory is refused.
pub fn call_ended(
    alloc: Global,
    shape: &GuestShape,
    actor: u32,
    operation: &Operation,
    piece: &[Made],
    answer: Option<u64>,
) -> Result<bool, AllocError>
    requires shape { IsShape shape.now }
    requires records { IsTrue (are_records shape.now piece.now) }
    requires good { IsTrue (is_good shape.now operation.now) }
    requires plain { IsTrue (is_plain_in shape.now operation.now) }
    ensures value { IfOk result (λ ended. (call : Call) (signals : Bool) → IsCallOf operation.now piece.now call → IsTrue ended ↔ IsEndedAs signals shape.now actor call answer) }
{
    if !is_doer(shape, actor, operation) {
        return Ok(false);
    }
    is_made(alloc, shape, actor, operation, piece, answer)
}
