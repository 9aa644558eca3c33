//! What is known of a guest after some moments, and whether one more goes on with them.
ghost use Rattle.std.specs.Prelude.{◌≡◌, ◌↔◌, ◌++◌, ◌∷◌, [], ◌+◌, ◌^◌, ◌<◌, IfOk, OnOk, IsTrue, List, false};
ghost use Rattle.trace_told.specs.Calls.{IsGoodGuest, Moment as MomentOf};
ghost use Rattle.trace_told.specs.Histories.{IdealGuest as IdealGuestOf, opening_guest};
ghost use Rattle.trace_told.specs.LegalPlay.LegalSteps.Step.{pass_of, actor_of, IsActorBegun, may_all_be_answered as may_all_be_answered_of};
ghost use Rattle.trace_told.specs.LegalPlay.HistoryPlay.Coming.{is_unknown};
ghost use Rattle.trace_told.specs.LegalPlay.Board.{IsComingNext, IsRightEnd};
ghost use Rattle.gic_check.specs.Notes.{AreAllDone};
ghost use Rattle.gic_check.specs.Play.{is_good_moment, Goes, IsPlayed, IsSomePlay, MayCome, StaysLegal};

use crate::its::note_done;
use crate::known::{operation_at, piece_at, shape_of};
use crate::notes::{no_notes, note_after, note_before, noted_of};
use history_turns::{Noted, call_begun, call_ended};
use std::alloc::{AllocError, Global};
use std::marker::Model;
use trace_told::{Board, GuestSpec, ListOf, Moment, NoMemory, may_all_be_answered};

/// A board, what is noted of each actor's call, and the doublewords of all commands that were done, oldest first.
#[derive(Drop)]
pub(crate) struct Play {
    pub(crate) board: Board,
    pub(crate) notes: ListOf<Noted>,
    pub(crate) done: ListOf<[u64; 4]>,
}

impl Model for Play {
    ghost use Rattle.gic_check.specs.Play.{PlayOf};

    ghost Value = { PlayOf };

    ghost view = { λ p. record { board = p.board; notes = p.notes; done = p.done } };
}

/// The actor of a moment.
fn actor_in(moment: &Moment) -> u32
    ensures { result ≡ actor_of moment.now }
{
    match *moment {
        Moment::Begin { actor, .. } | Moment::Happens { actor, .. } | Moment::End { actor, .. } => {
            actor
        }
    }
}

/// Of the end of an actor's call: whether what it made is the call, with this answer.
fn is_call(
    alloc: Global,
    board: &Board,
    notes: &[Noted],
    actor: u32,
    answer: Option<u64>,
) -> Result<bool, AllocError>
    requires play { IsSomePlay board.now notes.now }
    ensures { (guest : IdealGuestOf) (moments : List MomentOf) → IsPlayed guest moments board.now notes.now → IfOk result (λ right. IsTrue right ↔ IsRightEnd (pass_of guest moments).course (MomentOf.End actor answer)) }
{
    match operation_at(board, actor) {
        Some(operation) => {
            let piece = piece_at(board, actor);
            let noted = noted_of(notes, actor);
            let shape = shape_of(board);
            call_ended(alloc, shape, actor, &operation, piece, noted, answer)
        }
        None => Ok(false),
    }
}

/// Whether a moment is no end of a call which that is not.
fn is_right_end(
    alloc: Global,
    board: &Board,
    notes: &[Noted],
    moment: &Moment,
) -> Result<bool, AllocError>
    requires play { IsSomePlay board.now notes.now }
    ensures { (guest : IdealGuestOf) (moments : List MomentOf) → IsPlayed guest moments board.now notes.now → IfOk result (λ right. IsTrue right ↔ IsRightEnd (pass_of guest moments).course moment.now) }
{
    match *moment {
        Moment::End { actor, answer } => is_call(alloc, board, notes, actor, answer),
        Moment::Begin { .. } | Moment::Happens { .. } => Ok(true),
    }
}

/// Whether a moment may come next: what it would leave is not asked.
fn may_come(
    alloc: Global,
    board: &Board,
    notes: &[Noted],
    moment: &Moment,
) -> Result<bool, AllocError>
    requires play { IsSomePlay board.now notes.now }
    ensures coming { IfOk result (λ may. IsTrue may → IsComingNext board.now.state board.now.track moment.now) }
    ensures value { (guest : IdealGuestOf) (moments : List MomentOf) → IsPlayed guest moments board.now notes.now → IfOk result (λ may. IsTrue may ↔ MayCome (pass_of guest moments) board.now moment.now) }
{
    if !board.may_come(moment) {
        return Ok(false);
    }
    if !board.is_fresh(moment) {
        return Ok(false);
    }
    is_right_end(alloc, board, notes, moment)
}

/// Whether an actor's call, if it is in one, can still become it.
fn is_begun(alloc: Global, board: &Board, notes: &[Noted], actor: u32) -> Result<bool, AllocError>
    requires play { IsSomePlay board.now notes.now }
    ensures { (guest : IdealGuestOf) (moments : List MomentOf) → IsPlayed guest moments board.now notes.now → IfOk result (λ begun. IsTrue begun ↔ IsActorBegun guest (pass_of guest moments).course actor) }
{
    match operation_at(board, actor) {
        Some(operation) => {
            let piece = piece_at(board, actor);
            let noted = noted_of(notes, actor);
            let shape = shape_of(board);
            call_begun(alloc, shape, actor, &operation, piece, noted)
        }
        None => Ok(true),
    }
}

/// Whether each interrupt that waits may still be answered.
fn may_be_answered(alloc: Global, board: &Board, _notes: &[Noted]) -> Result<bool, AllocError>
    requires play { IsSomePlay board.now _notes.now }
    ensures { (guest : IdealGuestOf) (moments : List MomentOf) → IsPlayed guest moments board.now _notes.now → IfOk result (λ may. may ≡ may_all_be_answered_of guest (pass_of guest moments)) }
{
    may_all_be_answered(
        alloc,
        board.state.shape(),
        &board.track,
        board.pieces.as_slice(),
        board.waits.as_slice(),
    )
}

/// Whether what a moment of an actor left is legal.
fn stays_legal(
    alloc: Global,
    board: &Board,
    notes: &[Noted],
    actor: u32,
) -> Result<bool, AllocError>
    requires play { IsSomePlay board.now notes.now }
    ensures { (guest : IdealGuestOf) (moments : List MomentOf) → IsPlayed guest moments board.now notes.now → IfOk result (λ stays. IsTrue stays ↔ StaysLegal guest (pass_of guest moments) actor) }
{
    let begun = is_begun(alloc, board, notes, actor)?;
    if !begun {
        return Ok(false);
    }
    may_be_answered(alloc, board, notes)
}

impl Play {
    /// What is known of a guest as it opens. `NoMemory` where memory is refused.
    pub(crate) fn open(alloc: Global, guest: &GuestSpec) -> Result<Play, NoMemory>
        requires { IsGoodGuest guest.now }
        ensures played { IfOk result (λ play. IsPlayed (opening_guest guest.now) [] play.board play.notes) }
        ensures done { IfOk result (λ play. AreAllDone play.board.state play.done) }
        ensures none { IfOk result (λ play. play.board.moments ≡ 0) }
    {
        let board = Board::open(alloc, guest)?;
        let notes = no_notes(alloc, guest.shape.vcpus + guest.shape.devices)?;
        let done = ListOf::new(alloc);
        Ok(Play { board, notes, done })
    }

    /// What is known after a moment that comes next.
    fn advance(&mut self, alloc: Global, moment: &Moment) -> Result<(), NoMemory>
        requires play { IsSomePlay self.old.board self.old.notes }
        requires done { AreAllDone self.old.board.state self.old.done }
        requires good { IsTrue (is_good_moment self.old.board.state.guest.shape moment.now) }
        requires coming { IsComingNext self.old.board.state self.old.board.track moment.now }
        requires known { is_unknown self.old.board.state moment.now ≡ false }
        requires moments { self.old.board.moments + 1 < 2 ^ 64 }
        ensures played { (guest : IdealGuestOf) (moments : List MomentOf) → IsPlayed guest moments self.old.board self.old.notes → OnOk result (IsPlayed guest (moments ++ moment.now ∷ []) self.new.board self.new.notes) }
        ensures all { OnOk result (AreAllDone self.new.board.state self.new.done) }
        ensures count { OnOk result (self.new.board.moments ≡ self.old.board.moments + 1) }
    {
        let all = self.done.as_slice();
        note_before(&mut self.notes, alloc, &self.board, all, moment)?;
        note_done(&mut self.done, moment)?;
        self.board.advance(alloc, moment)?;
        note_after(&mut self.notes, alloc, &self.board, moment)?;
        Ok(())
    }

    /// Whether a moment goes on with a legal list, after which this is what is known. If it does, then this is what is known after it.
    /// `NoMemory` where memory is refused: then it is of no further use.
    pub(crate) fn goes_on(&mut self, alloc: Global, moment: &Moment) -> Result<bool, NoMemory>
        requires play { IsSomePlay self.old.board self.old.notes }
        requires done { AreAllDone self.old.board.state self.old.done }
        requires good { IsTrue (is_good_moment self.old.board.state.guest.shape moment.now) }
        requires known { is_unknown self.old.board.state moment.now ≡ false }
        requires moments { self.old.board.moments + 1 < 2 ^ 64 }
        ensures { (guest : IdealGuestOf) (moments : List MomentOf) → IsPlayed guest moments self.old.board self.old.notes → IfOk result (Goes guest moments moment.now self.old.board.moments self.new) }
    {
        let may = may_come(alloc, &self.board, self.notes.as_slice(), moment)?;
        if !may {
            return Ok(false);
        }
        self.advance(alloc, moment)?;
        let stays = stays_legal(alloc, &self.board, self.notes.as_slice(), actor_in(moment))?;
        Ok(stays)
    }
}
