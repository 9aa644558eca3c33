//! What is kept of the interrupts that a vCPU is offered.
ghost use Rattle.std.specs.Prelude.{◌≡◌, ◌<◌, ◌≤◌, [], ◌∷◌, ◌++◌, List, None, length, slice_get, if◌then◌else◌, IfSome};
ghost use Rattle.gic_ich.specs.GicLr.Entry.{IsEntry};
ghost use Rattle.std.specs.List.{slice_index_or};
ghost use Rattle.std.specs.Option.{option_map};
ghost use Rattle.gic_ich.specs.Words.{GuestShape};
ghost use Rattle.gic_ich.specs.GicPrio.declared.cpu.CpuRec.{CpuRec};
ghost use Rattle.vcpu_refill.specs.declared.offer.Offer.{Offer};
ghost use Rattle.vcpu_refill.specs.Chooser.{StandsFor, Keeps};
ghost use Rattle.vcpu_refill.specs.Order.{first_among};
ghost use Rattle.vcpu_refill.specs.Ranking.{in_places};
ghost use Rattle.vcpu_refill.specs.Plan.{plan as plan_of, is_trapping, is_cut, active_choice, pending_choice, choices_of, HasEntries};

use crate::fill::{Choice, Fill, control};
use crate::offer::Offer;
use crate::ranking::Ranking;
use gic_ich::{CpuRec, Irq, Key, LrState, MAX_LIST_REGISTERS};
use std::marker::Model;

/// What is kept of the interrupts that a vCPU was offered, to choose from them. It stores no list of all.
#[derive(Debug, Drop)]
pub struct Chooser {
    lrs: u32,
    vcpu: u32,
    active: Ranking,
    deliverable: Ranking,
}

impl Model for Chooser {
    ghost use Rattle.vcpu_refill.specs.Chooser.{Kept};
    ghost use Rattle.std.specs.Prelude.{◌≤◌};
    ghost use Rattle.gic_ich.specs.Words.{MAX_LIST_REGISTERS};

    ghost Value = { Kept };

    ghost view = { λ chooser. record { lrs = chooser.lrs; vcpu = chooser.vcpu; active = chooser.active; deliverable = chooser.deliverable } };

    ghost invariant = { λ chooser. chooser.lrs ≤ MAX_LIST_REGISTERS };
}

/// What is kept for a PE with this many list registers (1 to 16) and for this vCPU, before any offer.
pub fn fresh(lrs: u32, vcpu: u32) -> Chooser
    requires { 1 ≤ lrs × lrs ≤ MAX_LIST_REGISTERS }
    ensures lrs { result.lrs ≡ lrs }
    ensures vcpu { result.vcpu ≡ vcpu }
    ensures stands { (cpu : CpuRec) → StandsFor result cpu [] }
{
    Chooser {
        lrs,
        vcpu,
        active: Ranking::empty(),
        deliverable: Ranking::empty(),
    }
}

impl Chooser {
    /// Offers an interrupt with its record to the vCPU, whose CPU record has to be the same at each offer.
    /// Each interrupt is to be offered once.
    pub fn offer(&mut self, key: Key, irq: &Irq, cpu: &CpuRec)
        ensures lrs { self.new.lrs ≡ self.old.lrs }
        ensures vcpu { self.new.vcpu ≡ self.old.vcpu }
        ensures stands { (offers : List Offer) → StandsFor self.old cpu.now offers →
            StandsFor self.new cpu.now (offers ++ record { key = key; irq = irq.now } ∷ []) }
    {
        let offer = Offer { key, irq: *irq };
        self.active.put_where(offer.is_active_by(self.vcpu), offer);
        self.deliverable
            .put_where(offer.is_deliverable_to(self.vcpu, cpu), offer);
    }

    /// The active interrupt of a place in its list register.
    fn active_choice(&self, place: usize, cut: bool, cpu: &CpuRec) -> Option<Choice>
        requires { place < MAX_LIST_REGISTERS }
        ensures entry { IfSome result (λ choice. IsEntry choice.entry) }
        ensures value { (shape : GuestShape) → self.now.vcpu < shape.vcpus →
            result ≡ option_map (active_choice cut self.now.vcpu cpu.now shape) (slice_index_or self.now.active.places place None) }
    {
        let offer = self.active.places[place]?;
        Some(offer.chosen_as(offer.active_state(cut, self.vcpu, cpu)))
    }

    /// The deliverable interrupt of a place in its list register.
    fn pending_choice(&self, place: usize) -> Option<Choice>
        requires { place < MAX_LIST_REGISTERS }
        ensures entry { IfSome result (λ choice. IsEntry choice.entry) }
        ensures value { result ≡ option_map pending_choice (slice_index_or self.now.deliverable.places place None) }
    {
        let offer = self.deliverable.places[place]?;
        Some(offer.chosen_as(LrState::Pending))
    }

    /// What stands in a list register, where this many interrupts are active and nothing is trapped.
    fn choice_at(&self, place: usize, active: usize, cut: bool, cpu: &CpuRec) -> Option<Choice>
        requires { place < MAX_LIST_REGISTERS }
        ensures entry { IfSome result (λ choice. IsEntry choice.entry) }
        ensures value { (shape : GuestShape) → self.now.vcpu < shape.vcpus →
            (actives deliverables : List Offer) → Keeps self.now actives deliverables →
            length actives ≡ active → active ≤ self.now.lrs →
            result ≡ slice_get (choices_of actives deliverables cut self.now.vcpu cpu.now shape self.now.lrs) place }
    {
        if place < active {
            return self.active_choice(place, cut, cpu);
        }
        if place < self.lrs as usize {
            return self.pending_choice(place - active);
        }
        None
    }

    /// Whether the active interrupts do not all fit, or leave no list register for a deliverable one.
    fn is_trapping(&self) -> bool
        ensures { (actives deliverables : List Offer) → Keeps self.now actives deliverables →
            result ≡ is_trapping actives deliverables self.now.lrs }
    {
        self.active.more
            || self.active.count() + self.deliverable.count().min(1) > self.lrs as usize
    }

    /// Whether, out of trap mode, the deliverable interrupts do not all fit beside the active ones.
    fn is_cut(&self) -> bool
        ensures { (actives deliverables : List Offer) → Keeps self.now actives deliverables →
            result ≡ is_cut actives deliverables self.now.lrs }
    {
        !self.is_trapping()
            && (self.deliverable.more
                || self.active.count() + self.deliverable.count() > self.lrs as usize)
    }

    /// What stands in the list registers: nothing in trap mode.
    fn choices(
        &self,
        trapping: bool,
        cut: bool,
        cpu: &CpuRec,
    ) -> [Option<Choice>; MAX_LIST_REGISTERS]
        ensures entries { HasEntries result }
        ensures value { (shape : GuestShape) → self.now.vcpu < shape.vcpus →
            (actives deliverables : List Offer) → Keeps self.now actives deliverables →
            trapping ≡ is_trapping actives deliverables self.now.lrs →
            result ≡ in_places (if trapping then [] else choices_of actives deliverables cut self.now.vcpu cpu.now shape self.now.lrs) }
    {
        let mut choices = [None; MAX_LIST_REGISTERS];
        if trapping {
            return choices;
        }
        let active = self.active.count();
        for (place, slot) in choices.iter_mut().enumerate() {
            *slot = self.choice_at(place, active, cut, cpu);
        }
        choices
    }

    /// The first of the interrupts that are deliverable to the vCPU, with its record as it was offered. An
    /// acknowledge in trap mode takes it.
    pub fn first(&self) -> Option<Offer>
        ensures { (cpu : CpuRec) (offers : List Offer) → StandsFor self.now cpu offers →
            (shape : GuestShape) → self.now.vcpu < shape.vcpus →
            result ≡ first_among offers self.now.vcpu cpu shape }
    {
        self.deliverable.places[0]
    }

    /// The plan for the vCPU: what stands in each list register, whether something is cut off or every
    /// access is trapped, and ICH_HCR. The CPU record has to be the one of all offers.
    pub fn plan(&self, cpu: &CpuRec) -> Fill
        ensures entries { HasEntries result.choice }
        ensures value { (offers : List Offer) → StandsFor self.now cpu.now offers →
            (shape : GuestShape) → self.now.vcpu < shape.vcpus →
            result ≡ plan_of offers self.now.vcpu cpu.now shape self.now.lrs }
    {
        let trapping = self.is_trapping();
        let cut = self.is_cut();
        Fill {
            choice: self.choices(trapping, cut, cpu),
            cut,
            trapping,
            hcr: control(cpu, cut, trapping),
        }
    }
}
