//! The vCPUs of a guest, over its port.
ghost use Rattle.std.specs.Prelude.{◌≡◌, ℕ, ◌<◌, ◌≤◌, false, Some, IfOk, slice_get};
ghost use Rattle.guest_end.specs.Words.{MAX_LIST_REGISTERS};
ghost use Rattle.port_seq.specs.Ports.{told};
ghost use Rattle.port_seq.specs.Told.{opening_told};

use pe_place::{Place, Shelved, answer_kick, come_back, enter_pe, leave_pe, show_pe, step_aside};
use port_seq::{CorePort as Port, GuestPort, LrList};
use std::alloc::{AllocError, Global};
use std::sync::Wait;

/// The vCPUs of a guest.
#[derive(Drop)]
pub struct Vcpus {
    /// The list registers of each PE, 1 to 16.
    pub(crate) lrs: u32,
    /// Where the vCPUs are, by their numbers.
    pub(crate) places: Vec<Place>,
    ghost some: { 1 ≤ lrs },
    ghost most: { lrs ≤ 16 },
}

impl Vcpus {
    ghost use Rattle.pe_place.specs.Parts.{AreResidences};
    ghost use Rattle.pe_place.specs.declared.place.Place.{Place};
    ghost use Rattle.pe_place.specs.Place.{shelf, pe, IsShown, IsRoom, entered, left, gone_aside, returned};
    ghost use Rattle.law_entries_are_plans.specs.LawRegistersStand.Asks.{IsUnkicked};
    ghost use Rattle.port_seq.specs.Told.{state_of};
    ghost use Rattle.seq_guest.specs.Guest.{AreAt, GoesOn, Shows, ShowsList, NoneKicked, spot_at, ChangesSpots, for_none, for_one, but_one, for_all};

    /// The vCPUs of a guest that just opened, the number of which is told, by PEs with so many list registers (1 to 16): none
    /// stands on a PE. An error where memory is refused.
    pub fn opening(
        alloc: Global,
        guest: u32,
        port: &mut GuestPort,
        lrs: u32,
    ) -> Result<Vcpus, AllocError>
        requires opened { told port.old ≡ opening_told (told port.old).home (told port.old).guest guest }
        requires lrs { 1 ≤ lrs × lrs ≤ MAX_LIST_REGISTERS }
        ensures same { told port.new ≡ record (told port.old) { actor = (told port.new).actor } }
        ensures at { IfOk result (λ vcpus. AreAt (told port.new) vcpus) }
        ensures lrs { IfOk result (λ vcpus. vcpus.lrs ≡ lrs) }
        ensures spots { IfOk result (λ vcpus. (vcpu : ℕ) → spot_at vcpus vcpu ≡ shelf) }
    {
        let mut places = Vec::new(alloc);
        for vcpu in 0..port.shape().vcpus {
            port.set_actor(vcpu);
            places.push(Place::Shelf(Shelved {
                guest,
                vcpu,
                cpu: port.local_ref().cpu,
                next: 0,
            }))?;
        }
        Ok(Vcpus { lrs, places })
    }

    /// A vCPU enters a PE, where it stands on none.
    fn enter_one(&mut self, port: &mut GuestPort, vcpu: u32)
        requires at { AreAt (told port.old) self.old }
        requires there { vcpu < (told port.old).guest.shape.vcpus }
        ensures goes_on { GoesOn AreResidences (told port.old) (told port.new) self.old self.new }
        ensures spots { ChangesSpots (for_one vcpu entered) self.old self.new }
    {
        port.set_actor(vcpu);
        enter_pe(port, &mut self.places[vcpu as usize], self.lrs);
    }

    /// A vCPU leaves its PE, where it is on one.
    fn leave_one(&mut self, port: &mut GuestPort, vcpu: u32)
        requires at { AreAt (told port.old) self.old }
        requires there { vcpu < (told port.old).guest.shape.vcpus }
        ensures goes_on { GoesOn AreResidences (told port.old) (told port.new) self.old self.new }
        ensures spots { ChangesSpots (for_one vcpu left) self.old self.new }
    {
        port.set_actor(vcpu);
        leave_pe(port, &mut self.places[vcpu as usize]);
    }

    /// A vCPU leaves its PE for a while, where it is on one.
    fn set_aside(&mut self, port: &mut GuestPort, vcpu: u32)
        requires at { AreAt (told port.old) self.old }
        requires there { vcpu < (told port.old).guest.shape.vcpus }
        ensures goes_on { GoesOn AreResidences (told port.old) (told port.new) self.old self.new }
        ensures spots { ChangesSpots (for_one vcpu gone_aside) self.old self.new }
    {
        port.set_actor(vcpu);
        step_aside(port, &mut self.places[vcpu as usize]);
    }

    /// A vCPU leaves its PE for a while, where it is on one, but for one vCPU.
    fn set_aside_but(&mut self, port: &mut GuestPort, vcpu: u32, but: u32)
        requires at { AreAt (told port.old) self.old }
        requires there { vcpu < (told port.old).guest.shape.vcpus }
        ensures goes_on { GoesOn AreResidences (told port.old) (told port.new) self.old self.new }
        ensures spots { ChangesSpots (for_one vcpu (but_one but gone_aside vcpu)) self.old self.new }
    {
        if vcpu != but {
            self.set_aside(port, vcpu);
        }
    }

    /// A vCPU enters its PE again, where it had left it for a while.
    fn bring_back(&mut self, port: &mut GuestPort, vcpu: u32)
        requires at { AreAt (told port.old) self.old }
        requires there { vcpu < (told port.old).guest.shape.vcpus }
        ensures goes_on { GoesOn AreResidences (told port.old) (told port.new) self.old self.new }
        ensures spots { ChangesSpots (for_one vcpu returned) self.old self.new }
    {
        port.set_actor(vcpu);
        come_back(port, &mut self.places[vcpu as usize], self.lrs);
    }

    /// A vCPU leaves its PE and enters it again, where it is on one and kicked: whether it did.
    fn answer_one(&mut self, port: &mut GuestPort, vcpu: u32) -> bool
        requires at { AreAt (told port.old) self.old }
        requires there { vcpu < (told port.old).guest.shape.vcpus }
        ensures goes_on { GoesOn AreResidences (told port.old) (told port.new) self.old self.new }
        ensures spots { ChangesSpots (for_none) self.old self.new }
        ensures words { result ≡ false → (state_of (told port.new)).words ≡ (state_of (told port.old)).words }
        ensures quiet { result ≡ false → spot_at self.new vcpu ≡ pe → IsUnkicked (told port.new).guest.shape (state_of (told port.new)) vcpu }
    {
        port.set_actor(vcpu);
        answer_kick(port, &mut self.places[vcpu as usize])
    }

    /// Each vCPU that is on a PE and kicked leaves it and enters it again, one after the other: whether any did.
    fn answer_each(&mut self, port: &mut GuestPort) -> bool
        requires { AreAt (told port.old) self.old }
        ensures goes_on { GoesOn AreResidences (told port.old) (told port.new) self.old self.new }
        ensures spots { ChangesSpots for_none self.old self.new }
        ensures quiet { result ≡ false → NoneKicked (told port.new) self.new }
    {
        let mut answered = false;
        for vcpu in 0..port.shape().vcpus {
            answered |= self.answer_one(port, vcpu);
        }
        answered
    }

    /// Each vCPU that is kicked answers, one after the other, until none is kicked.
    pub(crate) fn answer_kicks<R: Wait>(&mut self, rt: &R, port: &mut GuestPort)
        requires { AreAt (told port.old) self.old }
        ensures goes_on { GoesOn AreResidences (told port.old) (told port.new) self.old self.new }
        ensures spots { ChangesSpots for_none self.old self.new }
        ensures quiet { NoneKicked (told port.new) self.new }
    {
        for _ in rt.forever() {
            if !self.answer_each(port) {
                return;
            }
        }
    }

    /// Each vCPU that is on a PE leaves it for a while, but for one.
    pub(crate) fn step_aside(&mut self, port: &mut GuestPort, but: u32)
        requires { AreAt (told port.old) self.old }
        ensures goes_on { GoesOn AreResidences (told port.old) (told port.new) self.old self.new }
        ensures spots { ChangesSpots (but_one but gone_aside) self.old self.new }
    {
        for vcpu in 0..port.shape().vcpus {
            self.set_aside_but(port, vcpu, but);
        }
    }

    /// Each vCPU that left its PE for a while enters it again.
    pub(crate) fn come_back(&mut self, port: &mut GuestPort)
        requires { AreAt (told port.old) self.old }
        ensures goes_on { GoesOn AreResidences (told port.old) (told port.new) self.old self.new }
        ensures spots { ChangesSpots (for_all returned) self.old self.new }
    {
        for vcpu in 0..port.shape().vcpus {
            self.bring_back(port, vcpu);
        }
    }

    /// A vCPU that stands on no PE enters one.
    pub fn enter<R: Wait>(&mut self, rt: &R, port: &mut GuestPort, vcpu: u32)
        requires at { AreAt (told port.old) self.old }
        requires there { vcpu < (told port.old).guest.shape.vcpus }
        ensures goes_on { GoesOn AreResidences (told port.old) (told port.new) self.old self.new }
        ensures spots { ChangesSpots (for_one vcpu entered) self.old self.new }
        ensures quiet { NoneKicked (told port.new) self.new }
    {
        self.enter_one(port, vcpu);
        self.answer_kicks(rt, port);
    }

    /// A vCPU that is on a PE leaves it.
    pub fn leave<R: Wait>(&mut self, rt: &R, port: &mut GuestPort, vcpu: u32)
        requires at { AreAt (told port.old) self.old }
        requires there { vcpu < (told port.old).guest.shape.vcpus }
        ensures goes_on { GoesOn AreResidences (told port.old) (told port.new) self.old self.new }
        ensures spots { ChangesSpots (for_one vcpu left) self.old self.new }
        ensures quiet { NoneKicked (told port.new) self.new }
    {
        self.leave_one(port, vcpu);
        self.answer_kicks(rt, port);
    }

    /// A vCPU that is on a PE leaves it and enters it again: ICH_HCR and the list registers of the PE then, in a list that has
    /// room for them.
    fn show_one(&mut self, port: &mut GuestPort, vcpu: u32, room: Vec<u64>) -> LrList
        requires at { AreAt (told port.old) self.old }
        requires there { vcpu < (told port.old).guest.shape.vcpus }
        requires on { spot_at self.old vcpu ≡ pe }
        requires room { IsRoom room }
        ensures shows { Shows (told port.old) (told port.new) self.old self.new vcpu }
        ensures spots { ChangesSpots for_none self.old self.new }
        ensures list { (place : Place) → slice_get self.new.places.items vcpu ≡ Some place → IsShown place result }
    {
        port.set_actor(vcpu);
        show_pe(port, &mut self.places[vcpu as usize], room)
    }

    /// What a vCPU's PE shows in its list registers, in a list that has room for them, and the kicks are answered that this gives.
    pub fn show<R: Wait>(
        &mut self,
        rt: &R,
        port: &mut GuestPort,
        vcpu: u32,
        room: Vec<u64>,
    ) -> LrList
        requires at { AreAt (told port.old) self.old }
        requires there { vcpu < (told port.old).guest.shape.vcpus }
        requires on { spot_at self.old vcpu ≡ pe }
        requires room { IsRoom room }
        ensures goes_on { GoesOn AreResidences (told port.old) (told port.new) self.old self.new }
        ensures spots { ChangesSpots for_none self.old self.new }
        ensures shown { ShowsList (told port.old) (told port.new) self.old self.new vcpu result }
        ensures quiet { NoneKicked (told port.new) self.new }
    {
        let shown = self.show_one(port, vcpu, room);
        self.answer_kicks(rt, port);
        shown
    }
}
