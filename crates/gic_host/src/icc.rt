//! One access of the CPU interface by the vCPU that is loaded, on packed registers.
ghost use Rattle.std.specs.Prelude.{ℕ, Option, ◌≡◌, ◌<◌, ◌≤◌, ◌^◌, ◌∷◌, take, true, false, IsTrue, Some, None, map, find, position, option_and_then, slice_get, option_to_list};
ghost use Rattle.std.specs.Option.{option_map, option_map_or};
ghost use Rattle.gic_ich.specs.Words.{GuestShape, has_bit};
ghost use Rattle.gic_ich.specs.Hcr.{hcr_en};
ghost use Rattle.gic_ich.specs.GicPrio.Priority.{HasBinaryPoints};
ghost use Rattle.gic_ich.specs.GicPrio.Access.{deactivated_by};
ghost use Rattle.gic_ich.specs.GicPrio.Interface.{interface_answer, interface_after};
ghost use Rattle.floor_lists.specs.Lists.{HasEntries, StandsFor, plan as plan_of, first_among, trap_cause, answered};
ghost use Rattle.gic_host.specs.Link.{linked_fill};
ghost use Rattle.gic_host.specs.State.{is_at as stands_at, interface_of, accessed};
ghost use Rattle.gic_host.specs.Text.{offer_of, offers_at, planned_registers};
ghost use Rattle.gic_host.specs.Good.{are_good_links, is_usable};
ghost use Rattle.gic_host.specs.Access.{HasGoodLinks, asks_first as asks_which_first, is_named as named_by, named_at, needed as needed_by, offers_for, names as names_phys, left_in, read_back as read_back_by};

use crate::link::{LinkList, linked};
use crate::state::{LinkState, Virtual};
use floor_lists::{Chooser, Fill, Key, Offer, Outcome, access, fresh};
use gic_ich::{
    CpuRec, HCR_EN, IccReg, LrState, MAX_LIST_REGISTERS, cpu_of, intid_deactivated,
    lr_unpack as unpack,
};

/// Whether a read of the register asks which interrupt comes first.
fn asks_first(reg: IccReg) -> bool
    ensures { result ≡ asks_which_first reg }
{
    matches!(
        reg,
        IccReg::Iar0 | IccReg::Iar1 | IccReg::Hppir0 | IccReg::Hppir1
    )
}

impl LinkState {
    /// The virtual interrupt, to be planned.
    fn offer(&self) -> Offer
        ensures { result ≡ offer_of self.now }
    {
        Offer {
            key: Key::Spi(self.link.vid),
            irq: self.irq(),
        }
    }

    /// Whether it is the active one with an INTID at a vCPU.
    fn is_named(&self, vcpu: u32, id: u32) -> bool
        ensures { result ≡ named_by vcpu id self.now }
    {
        self.link.vcpu == vcpu && self.link.vid == id && self.state.is_active()
    }

    /// The link after an access that left the virtual interrupt in a list register with this State. State 0 comes from
    /// State 2: the physical interrupt is deactivated with the virtual one.
    fn left_in(self, state: LrState) -> LinkState
        ensures { result ≡ left_in self state }
    {
        if state.has_pending() {
            LinkState {
                state: Virtual::Pending,
                ..self
            }
        } else if state.has_active() {
            LinkState {
                state: Virtual::Active,
                ..self
            }
        } else {
            LinkState {
                state: Virtual::Idle,
                active: false,
                ..self
            }
        }
    }

    /// The link after an access of a vCPU that found these list registers and left others.
    fn read_back(self, vcpu: u32, before: &[u64], after: &[u64]) -> LinkState
        ensures { result ≡ read_back_by vcpu before.now after.now self }
    {
        if !self.is_at(vcpu) {
            return self;
        }
        match word_for(self.link.phys, before, after) {
            Some(word) => self.left_in(unpack(word).state),
            None => self,
        }
    }
}

/// Whether a list register names a physical interrupt.
fn names(word: u64, phys: u32) -> bool
    ensures { result ≡ names_phys phys word }
{
    unpack(word).hw == Some(phys)
}

/// The number of the first list register that names a physical interrupt.
fn place_of(words: &[u64], phys: u32) -> Option<usize>
    ensures value { result ≡ position (names_phys phys) words.now }
{
    words.iter().position(|word| names(*word, phys))
}

/// What is left in the list register that names a physical interrupt.
fn word_for(phys: u32, before: &[u64], after: &[u64]) -> Option<u64>
    ensures { result ≡ option_and_then (slice_get after.now) (position (names_phys phys) before.now) }
{
    match place_of(before, phys) {
        Some(place) => after.get(place).copied(),
        None => None,
    }
}

/// The links after an access of a vCPU that found these list registers and left others.
pub(crate) fn read_back(links: &mut [LinkState], vcpu: u32, before: &[u64], after: &[u64])
    ensures { links.new ≡ map (read_back_by vcpu before.now after.now) links.old }
{
    for link in links.iter_mut() {
        *link = link.read_back(vcpu, before, after);
    }
}

/// What a vCPU has at its interface, offered to be planned.
pub(crate) fn chooser(links: &[LinkState], vcpu: u32, cpu: &CpuRec, lrs: u32) -> Chooser
    requires { 1 ≤ lrs × lrs ≤ MAX_LIST_REGISTERS }
    ensures lrs { result.lrs ≡ lrs }
    ensures vcpu { result.vcpu ≡ vcpu }
    ensures stands { StandsFor result cpu.now (offers_at links.now vcpu) }
{
    let mut chooser = fresh(lrs, vcpu);
    for link in links {
        if link.is_at(vcpu) {
            let offer = link.offer();
            chooser.offer(offer.key, &offer.irq, cpu);
        }
    }
    chooser
}

/// The link whose interrupt is the active one with an INTID at a vCPU.
fn named_link(links: &[LinkState], vcpu: u32, id: u32) -> Option<LinkState>
    ensures { result ≡ find (named_by vcpu id) links.now }
{
    links.iter().copied().find(|link| link.is_named(vcpu, id))
}

/// That interrupt, to be planned.
fn named(links: &[LinkState], vcpu: u32, id: u32) -> Option<Offer>
    ensures { result ≡ named_at links.now vcpu id }
{
    match named_link(links, vcpu, id) {
        Some(link) => Some(link.offer()),
        None => None,
    }
}

/// The one interrupt that an access needs in trap mode.
fn needed(
    links: &[LinkState],
    vcpu: u32,
    cpu: &CpuRec,
    first: Option<Offer>,
    reg: IccReg,
    write: Option<u64>,
) -> Option<Offer>
    ensures { (shape : GuestShape) → first ≡ first_among (offers_at links.now vcpu) vcpu cpu.now shape →
        result ≡ needed_by links.now vcpu cpu.now shape reg write }
{
    match write {
        None if asks_first(reg) => first,
        None => None,
        Some(value) => named(links, vcpu, intid_deactivated(cpu, reg, value)?),
    }
}

/// One interrupt or none, offered to be planned.
fn chooser_alone(offer: Option<Offer>, vcpu: u32, cpu: &CpuRec, lrs: u32) -> Chooser
    requires { 1 ≤ lrs × lrs ≤ MAX_LIST_REGISTERS }
    ensures lrs { result.lrs ≡ lrs }
    ensures vcpu { result.vcpu ≡ vcpu }
    ensures stands { StandsFor result cpu.now (option_to_list offer) }
{
    let mut chooser = fresh(lrs, vcpu);
    match offer {
        Some(offer) => {
            chooser.offer(offer.key, &offer.irq, cpu);
            chooser
        }
        None => chooser,
    }
}

/// The plan with one interrupt or none, with ICH_HCR.En alone.
fn plan_alone(offer: Option<Offer>, vcpu: u32, cpu: &CpuRec, lrs: u32) -> Fill
    requires { 1 ≤ lrs × lrs ≤ MAX_LIST_REGISTERS }
    ensures choice { (shape : GuestShape) → vcpu < shape.vcpus →
        result.choice ≡ (plan_of (option_to_list offer) vcpu cpu.now shape lrs).choice }
    ensures entries { HasEntries result.choice }
    ensures hcr { result.hcr ≡ 2 ^ hcr_en }
{
    let chooser = chooser_alone(offer, vcpu, cpu, lrs);
    Fill {
        hcr: HCR_EN,
        ..chooser.plan(cpu)
    }
}

/// The plan of all that is at the interface of a vCPU.
fn plan_all(chooser: &Chooser, links: &[LinkState], vcpu: u32, cpu: &CpuRec, lrs: u32) -> Fill
    requires lrs { chooser.now.lrs ≡ lrs }
    requires vcpu { chooser.now.vcpu ≡ vcpu }
    requires stands { StandsFor chooser.now cpu.now (offers_at links.now vcpu) }
    ensures value { (shape : GuestShape) → vcpu < shape.vcpus → result ≡ plan_of (offers_at links.now vcpu) vcpu cpu.now shape lrs }
    ensures entries { HasEntries result.choice }
{
    chooser.plan(cpu)
}

/// What stands in the list registers for an access of a vCPU: the plan of all that is at its interface, or in trap mode
/// the one interrupt that the access needs, so that the access is not trapped.
pub(crate) fn fill_for(
    links: &[LinkState],
    vcpu: u32,
    cpu: &CpuRec,
    lrs: u32,
    reg: IccReg,
    write: Option<u64>,
) -> Fill
    requires { 1 ≤ lrs × lrs ≤ MAX_LIST_REGISTERS }
    ensures choice { (shape : GuestShape) → vcpu < shape.vcpus →
        result.choice ≡ (plan_of (offers_for links.now vcpu cpu.now shape lrs reg write) vcpu cpu.now shape lrs).choice }
    ensures entries { HasEntries result.choice }
    ensures enabled { has_bit result.hcr hcr_en ≡ true }
    ensures untrapped { IsTrue (is_usable reg write) → trap_cause result.hcr reg ≡ None }
{
    let chooser = chooser(links, vcpu, cpu, lrs);
    let fill = plan_all(&chooser, links, vcpu, cpu, lrs);
    if !fill.trapping {
        return fill;
    }
    let offer = needed(links, vcpu, cpu, chooser.first(), reg, write);
    plan_alone(offer, vcpu, cpu, lrs)
}

/// What a read reads, or None for a write. A trapped access reads nothing.
fn value_of(outcome: Outcome) -> Option<u64>
    ensures { (value : Option ℕ) → outcome ≡ answered value → result ≡ value }
{
    match outcome {
        Outcome::Value(value) => Some(value),
        Outcome::Done | Outcome::Trap(_) => None,
    }
}

/// What an access gives.
#[derive(Clone, Copy, Debug)]
pub(crate) struct Accessed {
    /// What a read reads.
    pub value: Option<u64>,
    /// The record of the vCPU after the access.
    pub cpu: CpuRec,
}

/// One access of a register of its CPU interface by a vCPU with this record, on packed registers: what is at its interface
/// is planned and linked, the registers are stored, the access is carried out on them, and all is read back.
pub(crate) fn access_links(
    states: &mut [LinkState],
    links: &LinkList,
    lrs: u32,
    vcpu: u32,
    cpu: &CpuRec,
    reg: IccReg,
    write: Option<u64>,
) -> Accessed
    requires lrs { 1 ≤ lrs × lrs ≤ MAX_LIST_REGISTERS }
    requires links_are { map (λ l. l.link) states.old ≡ links.now }
    requires good { HasGoodLinks links.now }
    requires points { HasBinaryPoints cpu.now }
    requires usable { IsTrue (is_usable reg write) }
    ensures answer { result.value ≡ interface_answer reg write (interface_of cpu.now vcpu states.old) }
    ensures cpu { result.cpu ≡ (interface_after reg write (interface_of cpu.now vcpu states.old)).cpu }
    ensures links { states.new ≡ map (accessed vcpu (interface_after reg write (interface_of cpu.now vcpu states.old)).at) states.old }
{
    let fill = fill_for(states, vcpu, cpu, lrs, reg, write);
    let before = linked(&fill, links, vcpu).registers(cpu, lrs);
    let mut after = before;
    let outcome = access(&mut after, reg, write);
    read_back(states, vcpu, before.listed(), after.listed());
    Accessed {
        value: value_of(outcome),
        cpu: cpu_of(&after, cpu.lpis),
    }
}

/// ICH_HCR and the list registers of a PE.
#[derive(Clone, Copy, Debug)]
pub(crate) struct Registers {
    pub hcr: u32,
    pub words: [u64; MAX_LIST_REGISTERS],
}

/// ICH_HCR and the list registers of a PE for a vCPU with this record: its plan, with its links.
pub(crate) fn registers_for(
    states: &[LinkState],
    links: &LinkList,
    lrs: u32,
    vcpu: u32,
    cpu: &CpuRec,
) -> Registers
    requires lrs { 1 ≤ lrs × lrs ≤ MAX_LIST_REGISTERS }
    requires links_are { map (λ l. l.link) states.now ≡ links.now }
    requires good { HasGoodLinks links.now }
    ensures { (vcpus : ℕ) → vcpu < vcpus → result.hcr ∷ take lrs result.words ≡ planned_registers lrs vcpus cpu.now vcpu states.now }
{
    let chooser = chooser(states, vcpu, cpu, lrs);
    let fill = plan_all(&chooser, states, vcpu, cpu, lrs);
    let fill = linked(&fill, links, vcpu);
    Registers {
        hcr: fill.hcr,
        words: fill.words(),
    }
}
