//! Calls in progress: whether what they made is the call, and whether it can still become it.
ghost use Rattle.std.specs.Prelude.{◌≡◌, ◌↔◌, ◌&&◌, false, IsTrue, IfOk, None};
ghost use Rattle.history_turns.specs.Words.{IsShape};
ghost use Rattle.history_turns.specs.Histories.{Call, IsEndedAs};
ghost use Rattle.history_turns.specs.LegalLists.Legal.{IsBegun};
ghost use Rattle.history_turns.specs.HistoryCalls.Exact.{is_good, are_records, is_plain as is_plain_in};
ghost use Rattle.history_turns.specs.Judged.{rising_vcpu as rising_vcpu_in, its_write as its_write_in, is_message as is_message_in};
ghost use Rattle.history_turns.specs.Noted.{IsNotedOf};
ghost use Rattle.history_turns.specs.Signalled.{is_signalled as is_signalled_by};

use crate::noted::Noted;
use crate::rise::{may_rise, rises};
use crate::signal::is_signalled;
use history_commands::{
    DeviceOp, Frame, GuestOp, GuestShape, Made, Operation, is_plain, its_begun, its_ended,
};
use std::alloc::{AllocError, Global};

/// A write of a register of the ITS.
#[derive(Clone, Copy, Debug, PartialEq, Eq, Hash)]
pub(crate) struct ItsWrite {
    /// Where the register is, in bytes from the start of its frame.
    pub(crate) offset: u32,
    /// How many bytes are written.
    pub(crate) size: u32,
    /// What is written.
    pub(crate) value: u64,
}

/// The vCPU whose EnableLPIs an operation of an actor sets, if it does and the actor is a vCPU.
fn rising_vcpu(shape: &GuestShape, actor: u32, operation: &Operation) -> Option<u32>
    requires { IsTrue (is_good shape.now operation.now) }
    ensures { result ≡ rising_vcpu_in shape.now actor operation.now }
{
    match *operation {
        Operation::Access {
            op: GuestOp::Mem {
                frame: Frame::Redist { vcpu },
                ..
            },
        } if actor < shape.vcpus && !is_plain(shape, operation) => Some(vcpu),
        _ => None,
    }
}

/// The write of a register of the ITS that an operation of an actor is, if it is one and the actor is a vCPU.
fn its_write(shape: &GuestShape, actor: u32, operation: &Operation) -> Option<ItsWrite>
    ensures { result ≡ its_write_in shape.now actor operation.now }
{
    match *operation {
        Operation::Access {
            op: GuestOp::Mem {
                frame: Frame::Its,
                offset,
                size,
                write: Some(value),
            },
        } if actor < shape.vcpus => Some(ItsWrite {
            offset,
            size,
            value,
        }),
        _ => None,
    }
}

/// Whether an operation of an actor is a message-signalled interrupt, and the actor is a device.
fn is_message(shape: &GuestShape, actor: u32, operation: &Operation) -> bool
    ensures { result ≡ is_message_in shape.now actor operation.now }
{
    match operation {
        Operation::Device {
            op: DeviceOp::Msi { .. },
        } => actor >= shape.vcpus,
        _ => false,
    }
}

/// Whether what a device's call made is a message-signalled interrupt, or can still become one. False of all other operations.
fn signals(
    is_open: bool,
    shape: &GuestShape,
    actor: u32,
    operation: &Operation,
    piece: &[Made],
    noted: &Noted,
) -> bool
    ensures { result ≡ (is_message_in shape.now actor operation.now && is_signalled_by is_open noted.now.signals noted.now.lpi piece.now) }
{
    is_message(shape, actor, operation) && is_signalled(is_open, noted.signals, noted.lpi, piece)
}

/// Whether what an actor's call made so far can still become the call, of an operation that takes the ITS or sets EnableLPIs.
fn turn_begun(
    alloc: Global,
    shape: &GuestShape,
    actor: u32,
    operation: &Operation,
    piece: &[Made],
    noted: &Noted,
) -> Result<bool, AllocError>
    requires shape { IsShape shape.now }
    requires records { IsTrue (are_records shape.now piece.now) }
    requires good { IsTrue (is_good shape.now operation.now) }
    requires turn { is_plain_in shape.now operation.now ≡ false }
    ensures { IfOk result (λ begun. (call : Call) → IsNotedOf shape.now operation.now piece.now noted.now call → IsTrue begun ↔ IsBegun noted.now.signals shape.now actor call) }
{
    if let Some(write) = its_write(shape, actor, operation) {
        let ItsWrite {
            offset,
            size,
            value,
        } = write;
        let done = noted.done.as_slice();
        let commands = noted.commands.as_slice();
        return its_begun(
            alloc, shape, done, commands, actor, offset, size, value, piece,
        );
    }
    match rising_vcpu(shape, actor, operation) {
        Some(vcpu) => may_rise(alloc, shape, actor, vcpu, noted, piece),
        None => Ok(signals(true, shape, actor, operation, piece, noted)),
    }
}

/// Whether what an actor's call made so far can still become the call, whatever it and the others do from here on. Its events so
/// far are given with what each handed out, oldest first, and what it noted. `AllocError` where memory is refused.
pub fn call_begun(
    alloc: Global,
    shape: &GuestShape,
    actor: u32,
    operation: &Operation,
    piece: &[Made],
    noted: &Noted,
) -> Result<bool, AllocError>
    requires shape { IsShape shape.now }
    requires records { IsTrue (are_records shape.now piece.now) }
    requires good { IsTrue (is_good shape.now operation.now) }
    ensures value { IfOk result (λ begun. (call : Call) → IsNotedOf shape.now operation.now piece.now noted.now call → IsTrue begun ↔ IsBegun noted.now.signals shape.now actor call) }
{
    if is_plain(shape, operation) {
        return history_commands::call_begun(alloc, shape, actor, operation, piece);
    }
    turn_begun(alloc, shape, actor, operation, piece, noted)
}

/// Whether what an actor's call made is the call, of an operation that answers nothing.
fn turn_ended(
    alloc: Global,
    shape: &GuestShape,
    actor: u32,
    operation: &Operation,
    piece: &[Made],
    noted: &Noted,
) -> Result<bool, AllocError>
    requires shape { IsShape shape.now }
    requires records { IsTrue (are_records shape.now piece.now) }
    requires good { IsTrue (is_good shape.now operation.now) }
    requires turn { is_plain_in shape.now operation.now ≡ false }
    ensures { IfOk result (λ ended. (call : Call) → IsNotedOf shape.now operation.now piece.now noted.now call → IsTrue ended ↔ IsEndedAs noted.now.signals shape.now actor call None) }
{
    if let Some(write) = its_write(shape, actor, operation) {
        let ItsWrite {
            offset,
            size,
            value,
        } = write;
        let done = noted.done.as_slice();
        let commands = noted.commands.as_slice();
        return its_ended(
            alloc, shape, done, commands, actor, offset, size, value, piece,
        );
    }
    match rising_vcpu(shape, actor, operation) {
        Some(vcpu) => rises(alloc, shape, actor, vcpu, noted, piece),
        None => Ok(signals(false, shape, actor, operation, piece, noted)),
    }
}

/// Whether what an actor's call made is the call, with this answer. `AllocError` where memory is refused.
pub fn call_ended(
    alloc: Global,
    shape: &GuestShape,
    actor: u32,
    operation: &Operation,
    piece: &[Made],
    noted: &Noted,
    answer: Option<u64>,
) -> Result<bool, AllocError>
    requires shape { IsShape shape.now }
    requires records { IsTrue (are_records shape.now piece.now) }
    requires good { IsTrue (is_good shape.now operation.now) }
    ensures value { IfOk result (λ ended. (call : Call) → IsNotedOf shape.now operation.now piece.now noted.now call → IsTrue ended ↔ IsEndedAs noted.now.signals shape.now actor call answer) }
{
    if is_plain(shape, operation) {
        return history_commands::call_ended(alloc, shape, actor, operation, piece, answer);
    }
    match answer {
        Some(_) => Ok(false),
        None => turn_ended(alloc, shape, actor, operation, piece, noted),
    }
}
