//! The port of all actors of a scenario, in one thread.
ghost use Rattle.std.specs.Prelude.{◌≡◌, ◌<◌, ◌≤◌, All, IfOk, length};
ghost use Rattle.port_ops.specs.Calls.{IsGoodGuest};
ghost use Rattle.port_ops.specs.PortCore.IdealGuests.CanOpen.{CanOpen};
ghost use Rattle.port_ops.specs.PortCore.IdealGuests.Opening.{opening};

use crate::guest::GuestPort;
use port_ops::{EndWords, IdealGuest, Opened, guest_of, number_of};
use scn_base::{Actor, ListOf, Scenario};
use std::alloc::{AllocError, Global};

/// All guests of a scenario, of which the actors make their steps one after the other. One actor is told at a time.
#[derive(Drop)]
pub struct SeqPort {
    pub(crate) guests: Vec<GuestPort>,
    pub(crate) guest: u32,
    ghost there: { guest < length guests.items },
}

impl SeqPort {
    ghost use Rattle.std.specs.Prelude.{map, None};
    ghost use Rattle.port_seq.specs.Told.{current, HasActor, telling, IsOpening, words_of_end};
    ghost use Rattle.std.specs.Borrow.{sem};
    ghost use Rattle.port_seq.specs.Lending.{LendsGuest};
    ghost use Rattle.port_seq.specs.Ports.{told, told_all};

    /// All guests as they open, and vCPU 0 of the first is told. The scenario's guests are good: each, and 1 to 4 of
    /// them. An error where memory is refused.
    pub fn start(alloc: Global, scenario: &Scenario) -> Result<SeqPort, AllocError>
        requires good { All IsGoodGuest scenario.now.guests }
        requires some { 1 ≤ length scenario.now.guests }
        requires few { length scenario.now.guests ≤ 4 }
        ensures { IfOk result (λ port. IsOpening (map opening scenario.now.guests) (told_all port)) }
    {
        let mut guests = Vec::new(alloc);
        for guest in scenario.guests.as_slice() {
            guests.push(IdealGuest::open(alloc, guest)?)?;
        }
        SeqPort::start_from(alloc, guests)
    }

    /// The same of 1 to 4 guests that open in these states, in each of which a guest can open. An error where memory is
    /// refused.
    pub fn start_from(alloc: Global, guests: Vec<IdealGuest>) -> Result<SeqPort, AllocError>
        requires good { All CanOpen guests.items }
        requires some { 1 ≤ length guests.items }
        requires few { length guests.items ≤ 4 }
        ensures { IfOk result (λ port. IsOpening guests.items (told_all port)) }
    {
        let mut ports = Vec::new(alloc);
        for guest in guests {
            let number = ports.len() as u32;
            ports.push(GuestPort::start(alloc, Opened { number, guest })?)?;
        }
        Ok(SeqPort {
            guests: ports,
            guest: 0,
        })
    }

    /// The guest whose actor is told.
    pub(crate) fn current(&self) -> &GuestPort
        ensures { told result.now ≡ current (told_all self.now) }
    {
        &self.guests[self.guest as usize]
    }

    /// The port of the guest whose actor is told. What is done through it leaves all other guests as they are.
    pub fn current_mut(&mut self) -> &mut GuestPort
        ensures* lends { sem 𝓛 (LendsGuest self.entry result) }
        ensures value { told result.now ≡ current (told_all self.old) }
    {
        let number = self.guest as usize;
        &mut self.guests[number]
    }

    /// Tells another actor, which one of the guests has, and changes nothing else.
    pub fn set_actor(&mut self, actor: Actor)
        requires { HasActor (told_all self.old) actor }
        ensures { told_all self.new ≡ telling actor (told_all self.old) }
    {
        self.guest = guest_of(actor);
        let shape = self.current().shape;
        self.guests[self.guest as usize].set_actor(number_of(actor, &shape));
    }

    /// The words and the tables of each guest at the end, while no actor has taken tables. An error where memory is
    /// refused.
    pub fn finish(self, alloc: Global) -> Result<EndWords, AllocError>
        requires { All (λ guest. guest.taken ≡ None) (told_all self).guests }
        ensures { IfOk result (λ words. words ≡ map words_of_end (told_all self).guests) }
    {
        let SeqPort { guests, .. } = self;
        let mut words = ListOf::new(alloc);
        for guest in guests {
            words.push(guest.finish(alloc)?)?;
        }
        Ok(words)
    }
}
