//! The verdict on a trace.
ghost use Rattle.std.specs.Prelude.{◌≡◌, ◌↔◌, ◌++◌, ◌+◌, ◌≤◌, ◌<◌, ◌^◌, ℕ, IfOk, IfSome, IfNone, IsTrue, List, length, None, Some};
ghost use Rattle.trace_told.specs.Calls.{IsGoodGuest, Moment as MomentOf};
ghost use Rattle.trace_told.specs.Histories.{IdealGuest as IdealGuestOf, opening_guest};
ghost use Rattle.trace_told.specs.LegalPlay.LegalSteps.Step.{pass_of};
ghost use Rattle.trace_told.specs.TraceRead.Reading.{AreThere, event_fault};
ghost use Rattle.trace_told.specs.Told.{told as told_after};
ghost use Rattle.trace_told.specs.Laws.{AreFaultless, CanFollow};
ghost use Rattle.trace_told.specs.Verdict.{CanBe, IsVerdict, IsLeastRefused};
ghost use Rattle.gic_check.specs.Play.{AreGoodMoments, Follows, GoOn, IsPlayed, IsSomePlay, RefusesMore, IsFreshOnYes};
ghost use Rattle.gic_check.specs.Notes.{AreAllDone};

use crate::known::{operation_at, piece_at, shape_of, state_of};
use crate::play::Play;
use history_turns::Noted;
use std::alloc::Global;
use trace_told::{
    Board, ListOf, Moment, NoMemory, Trace, TraceEvent, Verdict, actor_of, moments_told,
};

/// Whether moments go on with a legal list, one after the other, after which this is what is known. If they do, then this is what is known after them.
fn go_on(play: &mut Play, alloc: Global, moments: &[Moment]) -> Result<bool, NoMemory>
    requires play { IsSomePlay play.old.board play.old.notes }
    requires done { AreAllDone play.old.board.state play.old.done }
    requires good { AreGoodMoments play.old.board.state.guest.shape moments.now }
    requires known { (guest : IdealGuestOf) (before : List MomentOf) → IsPlayed guest before play.old.board play.old.notes → AreFaultless (pass_of guest before).course moments.now }
    requires room { play.old.board.moments + length moments.now < 2 ^ 64 }
    ensures { (guest : IdealGuestOf) (before : List MomentOf) → IsPlayed guest before play.old.board play.old.notes → IfOk result (GoOn guest before moments.now play.old.board.moments play.new) }
{
    for moment in moments {
        let goes = play.goes_on(alloc, moment)?;
        if !goes {
            return Ok(false);
        }
    }
    Ok(true)
}

/// The moments that an event says, if it can be one.
fn told(
    alloc: Global,
    board: &Board,
    _notes: &[Noted],
    event: &TraceEvent,
) -> Result<Option<ListOf<Moment>>, NoMemory>
    requires play { IsSomePlay board.now _notes.now }
    ensures some { IfOk result (λ told. IfSome told (λ own. (guest : IdealGuestOf) (moments : List MomentOf) → IsPlayed guest moments board.now _notes.now → told_after (pass_of guest moments).course event.now ≡ Some own)) }
    ensures none { IfOk result (λ told. IfNone told ((guest : IdealGuestOf) (moments : List MomentOf) → IsPlayed guest moments board.now _notes.now → CanFollow guest (pass_of guest moments) event.now → ⊥)) }
{
    match actor_of(shape_of(board), event.by) {
        Some(actor) => {
            let operation = operation_at(board, actor);
            let piece = piece_at(board, actor);
            let told = moments_told(alloc, state_of(board), actor, operation, piece, &event.act)?;
            Ok(told)
        }
        None => Ok(None),
    }
}

/// Whether an event can come next. If it can, then this is what is known after it.
fn follows(play: &mut Play, alloc: Global, event: &TraceEvent) -> Result<bool, NoMemory>
    requires play { IsSomePlay play.old.board play.old.notes }
    requires done { AreAllDone play.old.board.state play.old.done }
    requires there { event_fault play.old.board.state.guest.shape event.now ≡ None }
    requires room { play.old.board.moments + 6 < 2 ^ 64 }
    ensures { (guest : IdealGuestOf) (moments : List MomentOf) → IsPlayed guest moments play.old.board play.old.notes → IfOk result (Follows guest moments event.now play.old.board.moments play.new) }
{
    let told = told(alloc, &play.board, play.notes.as_slice(), event)?;
    match told {
        Some(moments) => go_on(play, alloc, moments.as_slice()),
        None => Ok(false),
    }
}

/// The verdict on a trace: `Yes` exactly where its events can be a record of what the actors of its guest did, else `No` with the least number of its first
/// events that cannot. A record can be where each event says moments of the guest which, one after the other, are a legal list: all calls go on as the ideal
/// controller's, those that are open can still become calls, and each change comes in time, as far as what is still to come can be told.
///
/// The events have to be of what the guest has, as `read_trace` gives them, and at most 100,000. It takes memory linear in the events; beside that each actor that has started commands of
/// an ITS in its call keeps the commands before that, and for each of its own one vCPU for each LPI. Where memory is refused, the answer is `NoMemory`, whatever the events are.
pub fn check(alloc: Global, trace: &Trace) -> Result<Verdict, NoMemory>
    requires good { IsGoodGuest trace.now.guest }
    requires few { length trace.now.events ≤ 100000 }
    requires there { AreThere trace.now.guest.shape trace.now.events }
    ensures value { IfOk result (IsVerdict (opening_guest trace.now.guest) trace.now.events) }
    ensures yes { IfOk result (λ verdict. (verdict ≡ Verdict.Yes) ↔ CanBe (opening_guest trace.now.guest) trace.now.events) }
    ensures no { IfOk result (λ verdict. (index : ℕ) → (verdict ≡ Verdict.No index) ↔ IsLeastRefused (opening_guest trace.now.guest) trace.now.events index) }
    ensures more { IfOk result (RefusesMore (opening_guest trace.now.guest) trace.now.events) }
    ensures fresh { IfOk result (IsFreshOnYes (opening_guest trace.now.guest) trace.now.events) }
{
    let mut play = Play::open(alloc, &trace.guest)?;
    let events = trace.events.as_slice();
    for (index, event) in events.iter().enumerate() {
        let can = follows(&mut play, alloc, event)?;
        if !can {
            return Ok(Verdict::No {
                index: index as u32 + 1,
            });
        }
    }
    Ok(Verdict::Yes)
}
