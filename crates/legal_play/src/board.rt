//! What is known after some moments of a guest, and whether one more goes on with them, but for what calls have to be.
ghost use Rattle.std.specs.Prelude.{◌≡◌, ◌<◌, ◌+◌, ◌^◌, ◌↔◌, IfOk, OnOk, IsTrue, is_some, false};
ghost use Rattle.legal_steps.specs.Calls.{IsGoodGuest};
ghost use Rattle.legal_steps.specs.Histories.{opening_guest};
ghost use Rattle.history_play.specs.HistoryCheck.Ready.{IsReady};
ghost use Rattle.history_play.specs.HistoryCheck.Track.{doing_in};
ghost use Rattle.legal_steps.specs.Step.{Pass, opening_pass, passed};
ghost use Rattle.history_play.specs.Coming.{is_unknown};
ghost use Rattle.legal_play.specs.Board.{HasRoom, IsOfPass, MayHappen, IsComingNext, IsFreshAt};

use crate::passed::waits_after;
use crate::pieces::{no_pieces, note};
use crate::waiting::Waiting;
use history_play::{
    CallFound as Found, Doing, Event, GuestSpec, ListOf, Made, Moment, NoMemory, State, Track,
    can_happen, follow, is_same_found, opening_track,
};
use std::alloc::Global;
use std::marker::Model;

/// The state and the track of a guest, what each actor made in its call, and which interrupts wait, after so many moments.
#[derive(Drop)]
pub struct Board {
    pub state: State,
    pub track: Track,
    pub pieces: ListOf<ListOf<Made>>,
    pub waits: ListOf<Waiting>,
    pub moments: u64,
}

impl Model for Board {
    ghost use Rattle.history_play.specs.Coming.{is_unknown};
    ghost use Rattle.legal_play.specs.Board.{BoardOf};

    ghost Value = { BoardOf };

    ghost view = { λ b. record { state = b.state; track = b.track; pieces = b.pieces; waits = b.waits; moments = b.moments } };
}

/// Whether an actor is in a call.
fn is_busy(doings: &[Doing], actor: u32) -> bool
    ensures { result ≡ is_some (doing_in doings.now actor).operation }
{
    match doings.get(actor as usize) {
        Some(doing) => doing.operation.is_some(),
        None => false,
    }
}

/// Whether an event may happen in a call of its actor's, and hands out what is there.
fn may_happen(state: &State, track: &Track, actor: u32, event: &Event, found: &Found) -> bool
    requires ready { IsReady state.now }
    ensures value { IsTrue result ↔ MayHappen state.now track.now actor event.now found.now }
{
    if !is_busy(track.doings.as_slice(), actor) || !can_happen(state.shape(), event) {
        return false;
    }
    let there = state.handed_out(event);
    state.is_allowed(actor, event) && is_same_found(found, &there)
}

impl Board {
    /// What is known of a guest as it opens. `NoMemory` where memory is refused.
    #[tactic(auto, using(crate::proofs::BoardLemmas::opened))]
    pub fn open(alloc: Global, guest: &GuestSpec) -> Result<Board, NoMemory>
        requires { IsGoodGuest guest.now }
        ensures value { IfOk result (IsOfPass guest.now.shape (opening_pass (opening_guest guest.now))) }
        ensures none { IfOk result (λ board. board.moments ≡ 0) }
    {
        let state = State::open(alloc, guest)?;
        let track = opening_track(alloc, &guest.shape)?;
        let pieces = no_pieces(alloc, guest.shape.vcpus + guest.shape.devices)?;
        Ok(Board {
            state,
            track,
            pieces,
            waits: ListOf::new(alloc),
            moments: 0,
        })
    }

    /// Whether a moment goes on with what is known, but for what an ended call has to be.
    pub fn may_come(&self, moment: &Moment) -> bool
        requires room { HasRoom self.now }
        ensures { IsTrue result ↔ IsComingNext self.now.state self.now.track moment.now }
    {
        match moment {
            Moment::Begin { actor, .. } => {
                let shape = self.state.shape();
                *actor < shape.vcpus + shape.devices
                    && !is_busy(self.track.doings.as_slice(), *actor)
            }
            Moment::Happens {
                actor,
                event,
                found,
            } => may_happen(&self.state, &self.track, *actor, event, found),
            Moment::End { actor, .. } => is_busy(self.track.doings.as_slice(), *actor),
        }
    }

    /// Whether three clauses of fresh hold of a moment that the guest can have: at the interface, at an end of interrupt, and at the end of a call.
    pub fn is_fresh(&self, moment: &Moment) -> bool
        requires room { HasRoom self.now }
        requires coming { IsComingNext self.now.state self.now.track moment.now }
        ensures { IsTrue result ↔ IsFreshAt self.now.state self.now.track moment.now }
    {
        match *moment {
            Moment::Happens {
                event: Event::Cpu { vcpu, reg, write },
                ..
            } => {
                self.track
                    .is_fresh_at_interface(&self.state, vcpu, reg, write)
                    && self.track.is_fresh_at_end(&self.state, vcpu, reg, write)
            }
            Moment::End { actor, .. } => self.track.has_left_all(actor),
            _ => true,
        }
    }

    /// What is known after a moment that goes on, and is no end of a command with a fault. `NoMemory` where memory is refused: then it is of no further use.
    #[tactic(auto, using(crate::proofs::BoardLemmas::can_pass, crate::proofs::BoardLemmas::can_follow, crate::proofs::BoardLemmas::has_piece, crate::proofs::BoardLemmas::advanced))]
    pub fn advance(&mut self, alloc: Global, moment: &Moment) -> Result<(), NoMemory>
        requires room { HasRoom self.old }
        requires coming { IsComingNext self.old.state self.old.track moment.now }
        requires known { is_unknown self.old.state moment.now ≡ false }
        requires moments { self.old.moments + 1 < 2 ^ 64 }
        ensures count { OnOk result (self.new.moments ≡ self.old.moments + 1) }
        ensures value { (pass : Pass) → IsOfPass self.old.state.guest.shape pass self.old → OnOk result (IsOfPass self.old.state.guest.shape (passed pass moment.now) self.new) }
    {
        let waits = waits_after(
            alloc,
            &self.state,
            &self.track,
            moment,
            self.waits.as_slice(),
        )?;
        follow(
            &mut self.state,
            &mut self.track,
            alloc,
            moment,
            self.moments,
        )?;
        note(&mut self.pieces, alloc, moment)?;
        self.waits = waits;
        self.moments += 1;
        Ok(())
    }
}
