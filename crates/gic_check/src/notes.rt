//! What is noted of each actor's call as moments go on.
ghost use Rattle.std.specs.Prelude.{◌≡◌, ◌<◌, ℕ, false, IfOk, OnOk, IsTrue, List, length, replicate, slice_set};
ghost use Rattle.trace_told.specs.Words.{IsShape};
ghost use Rattle.trace_told.specs.LegalPlay.Answering.{AreGood};
ghost use Rattle.trace_told.specs.LegalPlay.HistoryPlay.HistoryCalls.Exact.{is_good};
ghost use Rattle.trace_told.specs.LegalPlay.HistoryPlay.HistoryCheck.Ready.{IsReady};
ghost use Rattle.trace_told.specs.Histories.{doing_of};
ghost use Rattle.history_turns.specs.Noted.{place_by};
ghost use Rattle.gic_check.specs.Notes.{nothing_noted as nothing, noted_of as noted_in, is_midway_in, is_taking as is_taking_in, of_each, rising_of as rising_of_op, rising_in as rising_by, later_seen as later_seen_of, seen_first, seen_made, noted_first, noted_made};
ghost use Rattle.gic_check.specs.Play.{AreSeen, AreSeenAfter, CanNote, CanSee, note_seen, notes_before, notes_made};

use crate::its::{copy_commands, copy_done, is_taking, take_at};
use crate::known::{operation_at, piece_at, shape_of, state_of};
use crate::seen::{first_seen, later_seen, made_seen, rising_of};
use crate::signal::{is_signal, lpi_after};
use history_turns::{Noted, Seen};
use std::alloc::{AllocError, Global};
use trace_told::{Board, Event, GuestShape, ListOf, Made, Moment, Operation, State};

/// What is noted of an actor that is in no call.
pub(crate) fn nothing_noted(alloc: Global) -> Noted
    ensures { result ≡ nothing }
{
    Noted {
        signals: false,
        lpi: None,
        targets: ListOf::new(alloc),
        done: ListOf::new(alloc),
        commands: ListOf::new(alloc),
    }
}

/// Of so many actors, none of which is in a call.
pub(crate) fn no_notes(alloc: Global, actors: u32) -> Result<ListOf<Noted>, AllocError>
    ensures { IfOk result (λ notes. notes ≡ replicate actors nothing) }
{
    let mut notes = ListOf::new(alloc);
    for _actor in 0..actors {
        notes.push(nothing_noted(alloc))?;
    }
    Ok(notes)
}

/// For which vCPUs the LPIs are as a call begins, if it sets EnableLPIs.
fn first_targets(
    alloc: Global,
    state: &State,
    operation: &Operation,
) -> Result<ListOf<Seen>, AllocError>
    requires ready { IsReady state.now }
    requires good { IsTrue (is_good state.now.guest.shape operation.now) }
    ensures { IfOk result (λ targets. targets ≡ seen_first state.now (rising_of_op state.now.guest.shape operation.now)) }
{
    match rising_of(state.shape(), operation) {
        Some(vcpu) => first_seen(alloc, state, vcpu),
        None => Ok(ListOf::new(alloc)),
    }
}

/// What is noted as a call begins.
fn first(alloc: Global, state: &State, operation: &Operation) -> Result<Noted, AllocError>
    requires ready { IsReady state.now }
    requires good { IsTrue (is_good state.now.guest.shape operation.now) }
    ensures { IfOk result (λ noted. noted ≡ noted_first state.now operation.now) }
{
    Ok(Noted {
        signals: false,
        lpi: None,
        targets: first_targets(alloc, state, operation)?,
        done: ListOf::new(alloc),
        commands: ListOf::new(alloc),
    })
}

/// For which vCPUs the LPIs were at an event of a call's own, before that, if it sets EnableLPIs.
fn made_targets(
    alloc: Global,
    shape: &GuestShape,
    operation: &Operation,
    piece: &[Made],
    event: &Event,
    noted: &Noted,
) -> Result<ListOf<Seen>, AllocError>
    requires shape { IsShape shape.now }
    requires good { IsTrue (is_good shape.now operation.now) }
    ensures { IfOk result (λ targets. targets ≡ seen_made shape.now (rising_of_op shape.now operation.now) piece.now event.now noted.now) }
{
    match rising_of(shape, operation) {
        Some(_) => made_seen(alloc, shape, piece, event, noted),
        None => Ok(ListOf::new(alloc)),
    }
}

/// What is noted at an event of a call's own, before that, of one that goes by no commands.
fn made(
    alloc: Global,
    board: &Board,
    operation: &Operation,
    piece: &[Made],
    event: &Event,
    noted: &Noted,
) -> Result<Noted, AllocError>
    requires ready { IsReady board.now.state }
    requires good { IsTrue (is_good board.now.state.guest.shape operation.now) }
    requires other { is_taking_in board.now.state.guest.shape operation.now ≡ false }
    ensures { (all : List (List ℕ)) → IfOk result (λ after. after ≡ noted_made board.now.state all (is_midway_in board.now.state board.now.pieces) operation.now piece.now event.now noted.now) }
{
    let state = &board.state;
    let targets = made_targets(alloc, state.shape(), operation, piece, event, noted)?;
    let signals = is_signal(state, board.pieces.as_slice(), operation, event);
    Ok(Noted {
        signals: noted.signals || signals,
        lpi: lpi_after(state, operation, event, noted.lpi),
        targets,
        done: copy_done(alloc, noted.done.as_slice())?,
        commands: copy_commands(alloc, noted.commands.as_slice())?,
    })
}

/// What is noted of an actor's call.
pub(crate) fn noted_of(notes: &[Noted], actor: u32) -> &Noted
    requires { actor < length notes.now }
    ensures { result.now ≡ noted_in notes.now actor }
{
    &notes[actor as usize]
}

/// Notes what an actor's call begins with.
fn begin(
    notes: &mut ListOf<Noted>,
    alloc: Global,
    state: &State,
    actor: u32,
    operation: &Operation,
) -> Result<(), AllocError>
    requires ready { IsReady state.now }
    requires good { IsTrue (is_good state.now.guest.shape operation.now) }
    requires there { actor < length notes.old }
    ensures { OnOk result (notes.new ≡ slice_set notes.old actor (noted_first state.now operation.now)) }
{
    let noted = first(alloc, state, operation)?;
    notes.set(actor as usize, noted);
    Ok(())
}

/// Notes what an actor's call notes at an event of its own, before that and after all these commands.
fn make(
    notes: &mut ListOf<Noted>,
    alloc: Global,
    board: &Board,
    all: &[[u64; 4]],
    actor: u32,
    event: &Event,
) -> Result<(), AllocError>
    requires ready { IsReady board.now.state }
    requires good { AreGood board.now.state.guest.shape board.now.track }
    requires there { actor < length notes.old }
    ensures { OnOk result (notes.new ≡ notes_made board.now all.now actor event.now notes.old) }
{
    match operation_at(board, actor) {
        Some(operation) => {
            if is_taking(shape_of(board), &operation) {
                return take_at(notes, alloc, state_of(board), all, actor, event);
            }
            let piece = piece_at(board, actor);
            let noted = noted_of(notes.as_slice(), actor);
            let next = made(alloc, board, &operation, piece, event, noted)?;
            notes.set(actor as usize, next);
            Ok(())
        }
        None => Ok(()),
    }
}

/// Notes what an actor's call begins with, or notes at an event of its own, before a moment of it and after all these commands. `AllocError` where memory is refused: then they are of no further use.
pub(crate) fn note_before(
    notes: &mut ListOf<Noted>,
    alloc: Global,
    board: &Board,
    all: &[[u64; 4]],
    moment: &Moment,
) -> Result<(), AllocError>
    requires roomy { CanNote board.now notes.old moment.now }
    ensures { OnOk result (notes.new ≡ notes_before board.now all.now moment.now notes.old) }
{
    match *moment {
        Moment::Begin { actor, operation } => begin(notes, alloc, &board.state, actor, &operation),
        Moment::Happens { actor, event, .. } => make(notes, alloc, board, all, actor, &event),
        Moment::End { actor, .. } => {
            notes.set(actor as usize, nothing_noted(alloc));
            Ok(())
        }
    }
}

/// The same after an event, of a call that sets EnableLPIs of a vCPU.
fn seen(
    alloc: Global,
    state: &State,
    vcpu: u32,
    piece: &[Made],
    noted: &Noted,
) -> Result<Noted, AllocError>
    requires { IsReady state.now }
    ensures { IfOk result (λ after. after ≡ record noted.now { targets = of_each state.now.guest.shape (later_seen_of state.now vcpu (place_by piece.now) noted.now) }) }
{
    Ok(Noted {
        signals: noted.signals,
        lpi: noted.lpi,
        targets: later_seen(alloc, state, vcpu, piece, noted)?,
        done: copy_done(alloc, noted.done.as_slice())?,
        commands: copy_commands(alloc, noted.commands.as_slice())?,
    })
}

/// The vCPU whose EnableLPIs an actor's call sets, if it is in one that does.
fn rising_in(board: &Board, actor: u32) -> Option<u32>
    requires good { AreGood board.now.state.guest.shape board.now.track }
    ensures { result ≡ rising_by board.now.state.guest.shape (doing_of board.now.track actor).operation }
{
    match operation_at(board, actor) {
        Some(operation) => rising_of(shape_of(board), &operation),
        None => None,
    }
}

/// Notes of an actor what its call sees after an event, if it is in one.
fn see(
    notes: &mut ListOf<Noted>,
    alloc: Global,
    board: &Board,
    actor: u32,
) -> Result<(), AllocError>
    requires ready { IsReady board.now.state }
    requires good { AreGood board.now.state.guest.shape board.now.track }
    requires there { actor < length notes.old }
    ensures { OnOk result (notes.new ≡ slice_set notes.old actor (note_seen board.now actor (noted_in notes.old actor))) }
{
    match rising_in(board, actor) {
        Some(vcpu) => {
            let piece = piece_at(board, actor);
            let noted = noted_of(notes.as_slice(), actor);
            let next = seen(alloc, state_of(board), vcpu, piece, noted)?;
            notes.set(actor as usize, next);
            Ok(())
        }
        None => Ok(()),
    }
}

/// Notes what each call sees after an event.
fn see_all(notes: &mut ListOf<Noted>, alloc: Global, board: &Board) -> Result<(), AllocError>
    requires { CanSee board.now notes.old }
    ensures { OnOk result (AreSeen board.now notes.old notes.new) }
{
    let shape = board.state.shape();
    for actor in 0..shape.vcpus + shape.devices {
        see(notes, alloc, board, actor)?;
    }
    Ok(())
}

/// Notes what each call sees after a moment, if that is an event. `AllocError` where memory is refused: then some may be noted.
pub(crate) fn note_after(
    notes: &mut ListOf<Noted>,
    alloc: Global,
    board: &Board,
    moment: &Moment,
) -> Result<(), AllocError>
    requires { CanSee board.now notes.old }
    ensures { OnOk result (AreSeenAfter board.now moment.now notes.old notes.new) }
{
    match moment {
        Moment::Happens { .. } => see_all(notes, alloc, board),
        Moment::Begin { .. } | Moment::End { .. } => Ok(()),
    }
}
