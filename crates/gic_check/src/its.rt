//! What a write of a register of the ITS that takes it goes by: the commands that were done before, and for which vCPUs the LPIs were as its own began.
ghost use Rattle.std.specs.Prelude.{◌≡◌, ◌+◌, ◌<◌, IfOk, OnOk, IsTrue, length, slice_set};
ghost use Rattle.trace_told.specs.Histories.{targets_in};
ghost use Rattle.trace_told.specs.LegalPlay.HistoryPlay.HistoryCalls.Exact.{is_good};
ghost use Rattle.trace_told.specs.LegalPlay.HistoryPlay.HistoryCheck.Ready.{IsReady};
ghost use Rattle.history_turns.specs.Begun.{begins_command as begins_command_in};
ghost use Rattle.history_turns.specs.Noted.{takes as takes_in};
ghost use Rattle.gic_check.specs.Notes.{is_taking as is_taking_in, done_after, noted_of, taken, targets_now as targets_now_in};

use crate::seen::target;
use history_turns::Noted;
use std::alloc::{AllocError, Global};
use std::mem::replace;
use trace_told::{
    Event, Frame, GuestOp, GuestShape, ListOf, Moment, Operation, QueueChange, State, is_plain,
};

/// Whether an operation is a write of a register of the ITS that takes it.
pub(crate) fn is_taking(shape: &GuestShape, operation: &Operation) -> bool
    requires { IsTrue (is_good shape.now operation.now) }
    ensures { result ≡ is_taking_in shape.now operation.now }
{
    match operation {
        Operation::Access {
            op: GuestOp::Mem {
                frame: Frame::Its,
                ..
            },
        } => !is_plain(shape, operation),
        _ => false,
    }
}

/// Whether an event takes the ITS.
fn takes(event: &Event) -> bool
    ensures { result ≡ takes_in event.now }
{
    matches!(event, Event::ItsBegin)
}

/// Whether a command begins with it.
fn begins_command(event: &Event) -> bool
    ensures { result ≡ begins_command_in event.now }
{
    match *event {
        Event::ItsBegin => true,
        Event::Queue { change, .. } => !matches!(change, QueueChange::Runs),
        _ => false,
    }
}

/// The same commands.
pub(crate) fn copy_done(alloc: Global, done: &[[u64; 4]]) -> Result<ListOf<[u64; 4]>, AllocError>
    ensures { IfOk result (λ copy. copy ≡ done.now) }
{
    let mut copy = Vec::new(alloc);
    copy.extend_from_slice(done)?;
    Ok(ListOf::from(copy))
}

/// The same vCPUs.
fn copy_targets(alloc: Global, targets: &[Option<u32>]) -> Result<ListOf<Option<u32>>, AllocError>
    ensures { IfOk result (λ copy. copy ≡ targets.now) }
{
    let mut copy = Vec::new(alloc);
    copy.extend_from_slice(targets)?;
    Ok(ListOf::from(copy))
}

/// And of each command.
pub(crate) fn copy_commands(
    alloc: Global,
    commands: &[ListOf<Option<u32>>],
) -> Result<ListOf<ListOf<Option<u32>>>, AllocError>
    ensures { IfOk result (λ copy. copy ≡ commands.now) }
{
    let mut copy = ListOf::new(alloc);
    for targets in commands {
        copy.push(copy_targets(alloc, targets.as_slice())?)?;
    }
    Ok(copy)
}

/// For which vCPU each LPI is.
fn targets_now(alloc: Global, state: &State) -> Result<ListOf<Option<u32>>, AllocError>
    requires { IsReady state.now }
    ensures { IfOk result (λ all. all ≡ targets_now_in state.now) }
{
    let mut all = ListOf::new(alloc);
    for number in 0..state.shape().lpis {
        let of = target(state, number);
        all.push(of)?;
    }
    Ok(all)
}

/// Notes what a write of a register of the ITS that takes it notes at an event of its own, before that: all commands that were done are given.
fn take(
    noted: &mut Noted,
    alloc: Global,
    state: &State,
    all: &[[u64; 4]],
    event: &Event,
) -> Result<(), AllocError>
    requires { IsReady state.now }
    ensures { OnOk result (noted.new ≡ taken state.now all.now event.now noted.old) }
{
    noted.targets = ListOf::new(alloc);
    if takes(event) {
        noted.done = copy_done(alloc, all)?;
    }
    if begins_command(event) {
        let targets = targets_now(alloc, state)?;
        noted.commands.push(targets)?;
    }
    Ok(())
}

/// Notes that of an actor.
pub(crate) fn take_at(
    notes: &mut ListOf<Noted>,
    alloc: Global,
    state: &State,
    all: &[[u64; 4]],
    actor: u32,
    event: &Event,
) -> Result<(), AllocError>
    requires ready { IsReady state.now }
    requires there { actor < length notes.old }
    ensures { OnOk result (notes.new ≡ slice_set notes.old actor (taken state.now all.now event.now (noted_of notes.old actor))) }
{
    let mut each = replace(notes, ListOf::new(alloc)).into_vec();
    take(&mut each[actor as usize], alloc, state, all, event)?;
    *notes = ListOf::from(each);
    Ok(())
}

/// Notes the command that a moment ends, if it does.
pub(crate) fn note_done(all: &mut ListOf<[u64; 4]>, moment: &Moment) -> Result<(), AllocError>
    ensures { OnOk result (all.new ≡ done_after moment.now all.old) }
{
    if let Moment::Happens {
        event: Event::Queue {
            change: QueueChange::Done { words },
            ..
        },
        ..
    } = *moment
    {
        all.push(words)?;
    }
    Ok(())
}
