//! The state of the ideal controller of one guest while interrupts stand at CPU interfaces.
ghost use Rattle.std.specs.Prelude.{◌≡◌, ◌<◌, [], IfOk, IsTrue, replicate};
ghost use Rattle.floor_histories.specs.Words.{has_interrupt};
ghost use Rattle.floor_histories.specs.Calls.{IsGoodGuest};
ghost use Rattle.floor_histories.specs.Histories.{irq_at, cpu_at, is_home, standing_at, moved_at};
ghost use Rattle.floor_histories.specs.GicHistory.State.{opening};
ghost use Rattle.floor_histories.specs.IdealGuests.Opening.{opening as opening_guest};
ghost use Rattle.history_check.specs.Ready.{IsReady};

use crate::standing::{Standing, entry_of, is_somewhere};
use floor_histories::{
    CpuRec, GuestShape, GuestSpec, IdealGuest, Irq, Key, ListOf, Moved, place_of,
};
use std::alloc::{AllocError, Global};
use std::marker::Model;

/// The records and words of a guest, what stands at each vCPU's interface, the actor that copies the enables of GICD_CTLR,
/// and the one that has the ITS.
#[derive(Drop)]
pub struct State {
    pub(crate) guest: IdealGuest,
    pub(crate) at: ListOf<ListOf<Standing>>,
    pub(crate) spreads: Option<u32>,
    pub(crate) has_its: Option<u32>,
}

impl Model for State {
    ghost use Rattle.floor_histories.specs.Histories.{Ideal};

    ghost Value = { Ideal };

    ghost view = { λ s. record { guest = s.guest; at = s.at; spreads = s.spreads; has_its = s.has_its } };
}

/// So many interfaces at which nothing stands.
fn none_standing(alloc: Global, vcpus: u32) -> Result<ListOf<ListOf<Standing>>, AllocError>
    ensures { IfOk result (λ at. at ≡ replicate vcpus []) }
{
    let mut at = ListOf::new(alloc);
    for vcpu in 0..vcpus {
        let _ = vcpu;
        at.push(ListOf::new(alloc))?;
    }
    Ok(at)
}

impl State {
    /// The state in which a guest opens: nothing is at an interface, and both marks are free. `AllocError` where memory is
    /// refused.
    #[tactic(auto, using(crate::proofs::ReadyLemmas::ready_opening))]
    pub fn open(alloc: Global, guest: &GuestSpec) -> Result<Self, AllocError>
        requires { IsGoodGuest guest.now }
        ensures value { IfOk result (λ state. state ≡ opening (opening_guest guest.now)) }
        ensures ready { IfOk result IsReady }
    {
        let at = none_standing(alloc, guest.shape.vcpus)?;
        let guest = IdealGuest::open(alloc, guest)?;
        Ok(State {
            guest,
            at,
            spreads: None,
            has_its: None,
        })
    }

    /// The records and words of the guest.
    pub fn guest(&self) -> &IdealGuest
        ensures { result.now ≡ self.now.guest }
    {
        &self.guest
    }

    /// How many of each kind the guest has.
    pub fn shape(&self) -> &GuestShape
        ensures { result.now ≡ self.now.guest.shape }
    {
        &self.guest.shape
    }

    /// The actor that has the ITS, if one has it.
    pub fn its_actor(&self) -> Option<u32>
        ensures { result ≡ self.now.has_its }
    {
        self.has_its
    }

    /// Whether an interrupt is at no interface.
    pub fn is_home(&self, key: Key) -> bool
        ensures { result ≡ is_home self.now key }
    {
        !is_somewhere(self.at.as_slice(), key)
    }

    /// The record of an interrupt that the guest has.
    pub fn irq(&self, key: Key) -> Irq
        requires ready { IsReady self.now }
        requires there { IsTrue (has_interrupt self.now.guest.shape key) }
        ensures { result ≡ irq_at self.now.guest key }
    {
        self.guest.irqs.as_slice()[place_of(key, &self.guest.shape)]
    }

    /// The record of a vCPU's CPU interface. vCPUs are numbered from 0, below the shape's.
    pub fn cpu(&self, vcpu: u32) -> CpuRec
        requires ready { IsReady self.now }
        requires there { vcpu < self.now.guest.shape.vcpus }
        ensures { result ≡ cpu_at self.now.guest vcpu }
    {
        self.guest.cpus.as_slice()[vcpu as usize]
    }

    /// What stands at a vCPU's interface.
    pub fn standing(&self, vcpu: u32) -> &[Standing]
        requires ready { IsReady self.now }
        requires vcpu { vcpu < self.now.guest.shape.vcpus }
        ensures { result.now ≡ standing_at self.now vcpu }
    {
        self.at.as_slice()[vcpu as usize].as_slice()
    }

    /// An interrupt of the guest with what a vCPU's interface has of it, if it is there.
    pub fn moved(&self, key: Key, vcpu: u32) -> Option<Moved>
        requires ready { IsReady self.now }
        requires key { IsTrue (has_interrupt self.now.guest.shape key) }
        requires vcpu { vcpu < self.now.guest.shape.vcpus }
        ensures { result ≡ moved_at self.now vcpu key }
    {
        let irq = self.irq(key);
        let entry = entry_of(self.standing(vcpu), key)?;
        Some(Moved { irq, entry })
    }
}
