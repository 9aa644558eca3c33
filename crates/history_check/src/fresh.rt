//! Three of the clauses of fresh: at the interface, at an end of interrupt, and at the end of a call. The fourth, at an
//! acknowledge, asks besides what an open call has still to do.
ghost use Rattle.std.specs.Prelude.{◌≡◌, ◌<◌, ◌==◌, [], ◌∷◌, IsTrue, IfSome, Some, None, false, fold};
ghost use Rattle.std.specs.List.{list_all, list_any};
ghost use Rattle.std.specs.Option.{option_map_or};
ghost use Rattle.floor_histories.specs.Words.{has_interrupt, IsShape};
ghost use Rattle.floor_histories.specs.Calls.{Event};
ghost use Rattle.floor_histories.specs.Histories.{is_open, changes_of, is_last_open, is_fresh_at_interface, is_fresh_at_end, ended_by, is_far_active, is_late, left_behind, has_left_all};
ghost use Rattle.history_check.specs.Ready.{IsReady};
ghost use Rattle.history_check.specs.Track.{HasPlaces};

use crate::access::ended;
use crate::state::State;
use crate::track::{Changes, Leaving, Track, Turn};
use floor_histories::{GuestShape, IccReg, Key, key_of, pending, place_of};

/// The bits of a value for EOIR or DIR that are the INTID.
const INTID_MASK: u64 = 0xFF_FFFF;

/// Whether one of these is to leave the interface of a vCPU.
fn is_any_of(leaving: &[Leaving], vcpu: u32) -> bool
    ensures { result ≡ list_any (λ pair. pair.0 == vcpu) leaving.now }
{
    leaving.iter().any(|one| one.vcpu == vcpu)
}

/// The interrupt that a write of EOIR or DIR names, if the guest has it.
fn ended_key(shape: &GuestShape, vcpu: u32, reg: IccReg, write: Option<u64>) -> Option<Key>
    requires shape { IsShape shape.now }
    requires vcpu { vcpu < shape.now.vcpus }
    ensures value { result ≡ ended_by shape.now vcpu reg write }
    ensures there { IfSome result (λ key. IsTrue (has_interrupt shape.now key)) }
{
    let value = write?;
    match reg {
        IccReg::Eoir0 | IccReg::Eoir1 | IccReg::Dir => key_of(
            (value & INTID_MASK) as u32,
            vcpu,
            shape,
        ),
        _ => None,
    }
}

impl Track {
    /// Who changed an interrupt last, and since it got to the interface where it is.
    pub fn changes(&self, shape: &GuestShape, key: Key) -> &Changes
        requires shape { IsShape shape.now }
        requires places { HasPlaces shape.now self.now }
        requires there { IsTrue (has_interrupt shape.now key) }
        ensures { result.now ≡ changes_of shape.now self.now key }
    {
        &self.changes.as_slice()[place_of(key, shape)]
    }

    /// Whether an interrupt was changed last in a call that is open to a vCPU.
    pub fn is_last_open(&self, shape: &GuestShape, vcpu: u32, key: Key) -> bool
        requires shape { IsShape shape.now }
        requires places { HasPlaces shape.now self.now }
        requires there { IsTrue (has_interrupt shape.now key) }
        ensures { result ≡ is_last_open shape.now self.now vcpu key }
    {
        match &self.changes(shape, key).last {
            Some(turn) => self.is_open(vcpu, turn),
            None => false,
        }
    }

    /// Whether all of some calls are open to a vCPU.
    fn are_open(&self, vcpu: u32, turns: &[Turn]) -> bool
        ensures { result ≡ list_all (is_open self.now vcpu) turns.now }
    {
        turns.iter().all(|turn| self.is_open(vcpu, turn))
    }

    /// At an access of a CPU interface register: whether each change of what stands at the interface, since it got there,
    /// was made in an open call.
    pub fn is_fresh_at_interface(
        &self,
        state: &State,
        vcpu: u32,
        reg: IccReg,
        write: Option<u64>,
    ) -> bool
        requires ready { IsReady state.now }
        requires places { HasPlaces state.now.guest.shape self.now }
        requires there { vcpu < state.now.guest.shape.vcpus }
        ensures { result ≡ is_fresh_at_interface state.now self.now (Event.Cpu vcpu reg write) }
    {
        let _ = (reg, write);
        for one in state.standing(vcpu) {
            if !self.are_open(
                vcpu,
                self.changes(&state.guest.shape, one.key).since.as_slice(),
            ) {
                return false;
            }
        }
        true
    }

    /// At a write of EOIR or DIR: whether the interrupt that it names, where that is home and active by the vCPU, was
    /// changed last in an open call.
    pub fn is_fresh_at_end(&self, state: &State, vcpu: u32, reg: IccReg, write: Option<u64>) -> bool
        requires ready { IsReady state.now }
        requires places { HasPlaces state.now.guest.shape self.now }
        requires there { vcpu < state.now.guest.shape.vcpus }
        ensures { result ≡ is_fresh_at_end state.now self.now (Event.Cpu vcpu reg write) }
    {
        match ended_key(&state.guest.shape, vcpu, reg, write) {
            Some(key) => !state.is_far_active(vcpu, key)
                || self.is_last_open(&state.guest.shape, vcpu, key),
            None => true,
        }
    }

    /// Whether the last of some calls is open to a vCPU; not where there is none.
    fn is_last_of_open(&self, vcpu: u32, turns: &[Turn]) -> bool
        ensures { result ≡ option_map_or (is_open self.now vcpu) (fold (λ last turn. Some turn) None turns.now) false }
    {
        let mut is_open = false;
        for turn in turns {
            is_open = self.is_open(vcpu, turn);
        }
        is_open
    }

    /// Whether an interrupt at a vCPU's interface that is active and not pending there, while its record is pending, has to
    /// leave if it is deactivated: unless the last change since it got there was made in an open call.
    fn is_late(&self, state: &State, vcpu: u32, key: Key) -> bool
        requires ready { IsReady state.now }
        requires places { HasPlaces state.now.guest.shape self.now }
        requires there { IsTrue (has_interrupt state.now.guest.shape key) }
        requires vcpu { vcpu < state.now.guest.shape.vcpus }
        ensures { result ≡ is_late state.now self.now vcpu key }
    {
        let is_open = self.is_last_of_open(
            vcpu,
            self.changes(&state.guest.shape, key).since.as_slice(),
        );
        let waits = match state.moved(key, vcpu) {
            Some(moved) => moved.entry.active && !moved.entry.pending && pending(&moved.irq),
            None => false,
        };
        waits && !is_open
    }

    /// The interrupt that an access of a CPU interface register deactivates, where it has to leave before the call ends: at
    /// the interface it is not pending, while its record is.
    pub fn left_behind(
        &self,
        state: &State,
        vcpu: u32,
        reg: IccReg,
        write: Option<u64>,
    ) -> Option<Key>
        requires ready { IsReady state.now }
        requires places { HasPlaces state.now.guest.shape self.now }
        requires vcpu { vcpu < state.now.guest.shape.vcpus }
        ensures { option_map_or (λ key. (vcpu, key) ∷ []) result [] ≡ left_behind state.now self.now (Event.Cpu vcpu reg write) }
    {
        let id = ended(reg, write, &state.cpu(vcpu))?;
        let key = key_of(id, vcpu, &state.guest.shape)?;
        self.is_late(state, vcpu, key).then_some(key)
    }

    /// At the end of a call: whether all that had to leave the actor's interface has left.
    pub fn has_left_all(&self, actor: u32) -> bool
        ensures { result ≡ has_left_all self.now actor }
    {
        !is_any_of(self.leaving.as_slice(), actor)
    }
}

impl State {
    /// Whether an interrupt of the guest is home and active by a vCPU.
    pub fn is_far_active(&self, vcpu: u32, key: Key) -> bool
        requires ready { IsReady self.now }
        requires there { IsTrue (has_interrupt self.now.guest.shape key) }
        ensures { result ≡ is_far_active self.now vcpu key }
    {
        let irq = self.irq(key);
        self.is_home(key) && irq.act_by == Some(vcpu)
    }
}
