//! Links, and the list registers that name physical interrupts by them.
ghost use Rattle.std.specs.Prelude.{◌≡◌, ◌↔◌, ℕ, find, map, IsTrue, IsSome, IfSome};
ghost use Rattle.std.specs.Option.{option_map};
ghost use Rattle.gic_ich.specs.GicPrio.declared.cpu.CpuRec.{CpuRec};
ghost use Rattle.gic_ich.specs.GicPrio.Interface.{InterfaceState};
ghost use Rattle.floor_lists.specs.Lists.{HasEntries, StandFor, held_of, regs_of};
ghost use Rattle.gic_host.specs.Link.{is_to as links_to, link_to as link_among, linked_choice as choice_with_link, linked_fill, AreLinked, HaveLinks, FitRegisters, FitPlaces};

use floor_lists::{Choice, Fill};
use gic_ich::{LrEntry, MAX_LIST_REGISTERS};
use scn_read::ListOf;

/// How many physical INTIDs a list register can name (IHI 0069, ICH_LR<n>_EL2.pINTID).
const PINTIDS: u32 = 1 << 13;

/// A physical interrupt that is handed to a vCPU.
#[derive(Clone, Copy, Debug, PartialEq, Eq, Hash)]
pub struct Link {
    /// The INTID of the physical interrupt, an SPI: 32 to 1019. No two links have one.
    pub phys: u32,
    /// The INTID of the virtual interrupt, an SPI of the vCPU: 32 to 1019. No two links of a vCPU have one.
    pub vid: u32,
    /// The vCPU.
    pub vcpu: u32,
    /// The priority of the virtual interrupt: a multiple of 8 up to 248.
    pub prio: u8,
}

/// Links, in order.
pub type LinkList = ListOf<Link>;

impl Link {
    /// Whether the link is to the interrupt with this INTID of a vCPU.
    fn is_to(&self, vcpu: u32, id: u32) -> bool
        ensures { result ≡ links_to vcpu id self.now }
    {
        self.vcpu == vcpu && self.vid == id
    }
}

/// The link to the interrupt with an INTID of a vCPU.
fn link_to(links: &[Link], vcpu: u32, id: u32) -> Option<Link>
    ensures { result ≡ link_among links.now vcpu id }
{
    links.iter().copied().find(|link| link.is_to(vcpu, id))
}

/// Whether what was chosen for a list register has a link.
fn has_link(place: &Option<Choice>, links: &[Link], vcpu: u32) -> bool
    ensures { IsTrue result ↔ IfSome place.now (λ choice. IsSome (link_among links.now vcpu choice.entry.id)) }
{
    match place {
        Some(choice) => link_to(links, vcpu, choice.entry.id).is_some(),
        None => true,
    }
}

/// Whether each interrupt that was chosen has a link of this vCPU. `linked` requires it.
pub fn are_linked(fill: &Fill, links: &LinkList, vcpu: u32) -> bool
    ensures { IsTrue result ↔ AreLinked links.now vcpu fill.now }
{
    let links = links.as_slice();
    fill.choice.iter().all(|place| has_link(place, links, vcpu))
}

/// Whether a list register has room for each physical INTID: below 8192, 13 bits.
pub fn fit_registers(links: &LinkList) -> bool
    ensures { IsTrue result ↔ FitRegisters links.now }
{
    links.as_slice().iter().all(|link| link.phys < PINTIDS)
}

/// What was chosen for a list register, with its link.
fn linked_choice(choice: &Choice, links: &[Link], vcpu: u32) -> Choice
    ensures { result ≡ choice_with_link links.now vcpu choice.now }
{
    let hw = match link_to(links, vcpu, choice.entry.id) {
        Some(link) => Some(link.phys),
        None => None,
    };
    Choice {
        entry: LrEntry {
            eoi: false,
            hw,
            ..choice.entry
        },
        ..*choice
    }
}

/// The same of a list register for which something was chosen, or nothing.
fn linked_place(place: &Option<Choice>, links: &[Link], vcpu: u32) -> Option<Choice>
    ensures { result ≡ option_map (choice_with_link links.now vcpu) place.now }
{
    match place {
        Some(choice) => Some(linked_choice(choice, links, vcpu)),
        None => None,
    }
}

/// The same of each list register.
fn linked_places(
    places: &[Option<Choice>; MAX_LIST_REGISTERS],
    links: &[Link],
    vcpu: u32,
) -> [Option<Choice>; MAX_LIST_REGISTERS]
    ensures { result ≡ map (option_map (choice_with_link links.now vcpu)) places.now }
{
    let mut linked = *places;
    for (place, slot) in linked.iter_mut().enumerate() {
        *slot = linked_place(&places[place], links, vcpu);
    }
    linked
}

/// A plan for a vCPU, with the links of what was chosen (IHI 0069, ICH_LR<n>_EL2: HW and pINTID): in each entry `hw` is
/// the physical INTID of the link of this vCPU to its INTID, and `eoi` is false. Each chosen interrupt has to have such a
/// link.
pub fn linked(fill: &Fill, links: &LinkList, vcpu: u32) -> Fill
    requires { AreLinked links.now vcpu fill.now }
    ensures value { result ≡ linked_fill links.now vcpu fill.now }
    ensures links { HaveLinks result }
    // A list register can hold each entry, since a physical INTID of a link has 13 bits.
    ensures entries { FitRegisters links.now → HasEntries result.choice }
    // What the registers stand for goes by INTID, priority, group and State, so it stays.
    ensures stands { (cpu : CpuRec) (n : ℕ) (interface : InterfaceState) → FitPlaces fill.now → FitRegisters links.now →
        StandFor (regs_of fill.now cpu n) (held_of fill.now) interface → StandFor (regs_of result cpu n) (held_of result) interface }
{
    Fill {
        choice: linked_places(&fill.choice, links.as_slice(), vcpu),
        ..*fill
    }
}
