//! What is chosen for the list registers.
ghost use Rattle.std.specs.Prelude.{◌≡◌, ◌<◌, map, IfSome};
ghost use Rattle.gic_ich.specs.Words.{GuestShape};
ghost use Rattle.std.specs.Option.{option_map};
ghost use Rattle.gic_ich.specs.GicLr.Entry.{IsEntry};
ghost use Rattle.gic_ich.specs.GicPrio.Priority.{HasBinaryPoints};
ghost use Rattle.vcpu_refill.specs.Plan.{hcr_of, chosen_as as choice_with, active_state as state_of_active, word_of, regs_of, held_as, held_of, HasEntries};

use crate::offer::Offer;
use gic_ich::{
    CpuRec, HCR_EN, HCR_NPIE, HCR_TALL0, HCR_TALL1, HCR_TC, HCR_TDIR, HCR_VGRP0DIE, HCR_VGRP0EIE,
    HCR_VGRP1DIE, HCR_VGRP1EIE, Held, HeldIrq, IchRegs, Irq, Key, LrEntry, LrState,
    MAX_LIST_REGISTERS, lr_pack as pack, pending, vmcr_of,
};

/// An interrupt that was chosen for a list register.
#[derive(Clone, Copy, Debug, PartialEq, Eq)]
pub struct Choice {
    pub key: Key,
    /// The interrupt's record as it was offered.
    pub irq: Irq,
    /// What the list register holds.
    pub entry: LrEntry,
}

/// The plan for a vCPU's stay on a PE.
#[derive(Clone, Copy, Debug, PartialEq, Eq)]
pub struct Fill {
    /// What stands in each list register, from the first on.
    pub choice: [Option<Choice>; MAX_LIST_REGISTERS],
    /// Some deliverable interrupts have no list register. False in trap mode.
    pub cut: bool,
    /// Trap mode: the active interrupts do not all have a list register, or leave none for a deliverable
    /// one. Every access of the CPU interface is trapped, and nothing was chosen.
    pub trapping: bool,
    /// ICH_HCR.
    pub hcr: u32,
}

impl Offer {
    /// The interrupt in a list register with this State.
    pub(crate) fn chosen_as(&self, state: LrState) -> Choice
        ensures value { result ≡ choice_with state self.now }
        ensures entry { IsEntry result.entry }
    {
        let returns_pending = state == LrState::Active && pending(&self.irq);
        Choice {
            key: self.key,
            irq: self.irq,
            entry: LrEntry {
                id: self.key.intid(),
                prio: self.irq.prio,
                group: self.irq.group,
                state,
                eoi: !self.irq.edge || returns_pending,
                hw: None,
            },
        }
    }

    /// The State of an interrupt that is active by the vCPU.
    pub(crate) fn active_state(&self, cut: bool, vcpu: u32, cpu: &CpuRec) -> LrState
        ensures { (shape : GuestShape) → vcpu < shape.vcpus → result ≡ state_of_active cut vcpu cpu.now shape self.now }
    {
        if !cut && self.would_be_deliverable(vcpu, cpu) {
            LrState::Both
        } else {
            LrState::Active
        }
    }
}

impl Choice {
    /// The interrupt as it is held: with the latched causes of its record where it is pending in its list
    /// register, and without where its State is 2.
    pub fn held(&self) -> HeldIrq
        ensures { result ≡ held_as self.now }
    {
        let brings = self.entry.state.has_pending();
        HeldIrq {
            key: self.key,
            rise: brings && self.irq.rise,
            soft: brings && self.irq.soft,
            edge: self.irq.edge,
        }
    }
}

/// ICH_HCR for a vCPU with this CPU record.
pub(crate) fn control(cpu: &CpuRec, cut: bool, trapping: bool) -> u32
    ensures { result ≡ hcr_of cpu.now cut trapping }
{
    let no_pending = if cut { HCR_NPIE } else { 0 };
    let group_0 = if cpu.en0 { HCR_VGRP0DIE } else { HCR_VGRP0EIE };
    let group_1 = if cpu.en1 { HCR_VGRP1DIE } else { HCR_VGRP1EIE };
    let traps = if trapping {
        HCR_TC + HCR_TALL0 + HCR_TALL1 + HCR_TDIR
    } else {
        0
    };
    HCR_EN + no_pending + group_0 + group_1 + traps
}

/// What is held at the place of a list register: none where nothing was chosen for it.
fn held_at(place: &Option<Choice>) -> Option<HeldIrq>
    ensures { result ≡ option_map held_as place.now }
{
    match place {
        Some(choice) => Some(choice.held()),
        None => None,
    }
}

/// The word of a list register: 0 where nothing was chosen for it.
fn word(place: &Option<Choice>) -> u64
    requires { IfSome place.now (λ choice. IsEntry choice.entry) }
    ensures { result ≡ word_of place.now }
{
    match place {
        Some(choice) => pack(&choice.entry),
        None => 0,
    }
}

impl Fill {
    /// The words of the list registers, 0 where nothing was chosen. A list register has to be able to hold
    /// each entry, as it can in every plan.
    pub fn words(&self) -> [u64; MAX_LIST_REGISTERS]
        requires { HasEntries self.now.choice }
        ensures { result ≡ map word_of self.now.choice }
    {
        let mut words = [0; MAX_LIST_REGISTERS];
        for (place, slot) in words.iter_mut().enumerate() {
            *slot = word(&self.choice[place]);
        }
        words
    }

    /// The registers of a PE with `lrs` list registers (1 to 16) that an entry of the vCPU stores. ICH_VMCR and
    /// the active levels are those of its CPU record.
    pub fn registers(&self, cpu: &CpuRec, lrs: u32) -> IchRegs
        requires entries { HasEntries self.now.choice }
        requires points { HasBinaryPoints cpu.now }
        ensures { result ≡ regs_of self.now cpu.now lrs }
    {
        IchRegs {
            lr: self.words(),
            n: lrs,
            vmcr: vmcr_of(cpu),
            hcr: self.hcr,
            ap0r: cpu.ap0,
            ap1r: cpu.ap1,
        }
    }

    /// What the vCPU holds after the entry, each interrupt at the place of its list register.
    pub fn held(&self) -> Held
        ensures { result ≡ held_of self.now }
    {
        let mut held = [None; MAX_LIST_REGISTERS];
        for (place, slot) in held.iter_mut().enumerate() {
            *slot = held_at(&self.choice[place]);
        }
        held
    }
}
