//! A vCPU on a PE.
ghost use Rattle.std.specs.Prelude.{◌≡◌, ◌≢◌, ◌<◌, ◌≤◌, ◌↔◌, [], List, Some, None, IsTrue, IfSome, IfNone, All, is_none, position};
ghost use Rattle.std.specs.List.{list_all, slice_index_or};
ghost use Rattle.gic_ich.specs.Words.{intid_of, HeldIrq as Brought};
ghost use Rattle.gic_ich.specs.GicPrio.Priority.{HasBinaryPoints};
ghost use Rattle.vcpu_state.specs.Holding.{held_keys, has_intid};
ghost use Rattle.gic_ich.specs.GicLr.Entry.{IsEntry, packed};
ghost use Rattle.gic_ich.specs.GicPrio.Interface.{AtInterface, InterfaceState};
ghost use Rattle.gic_ich.specs.Place.{StandsAs, IsHeld, StandFor};
ghost use Rattle.vcpu_state.specs.Moves.{loaded_of, shelved_of};
ghost use Rattle.vcpu_state.specs.Places.{with_place, IsWith, IsWithout};

use crate::shelved::Shelved;
use gic_ich::{
    HCR_EN, Held, HeldIrq, IchRegs, LrEntry, MAX_LIST_REGISTERS, cpu_of, lr_pack as pack, vmcr_of,
};

/// A vCPU on a PE. The registers are its own; the words of interrupts stay shared, and others may act on
/// them.
#[derive(Debug, Drop)]
pub struct Loaded {
    /// The vCPU as it came from the shelf: its CPU record is in the registers from then on, but for
    /// EnableLPIs.
    pub base: Shelved,
    /// The registers of the PE's virtual CPU interface.
    pub regs: IchRegs,
    /// The interrupts at its interface, each at the place of its list register.
    pub held: Held,
    /// Every access of the CPU interface is trapped.
    pub trapping: bool,
}

/// Whether no list register has an interrupt.
fn is_free(held: &Held) -> bool
    ensures { result ≡ list_all is_none held.now }
{
    held.iter().all(|place| place.is_none())
}

/// The first place of an interrupt with this INTID.
fn place_in(held: &Held, id: u32) -> Option<usize>
    ensures { result ≡ position (has_intid id) held.now }
{
    held.iter().position(|place| match place {
        Some(held) => held.key.intid() == id,
        None => false,
    })
}

impl Shelved {
    /// The vCPU on a PE with this many list registers (1 to 16), before it takes an interrupt: the
    /// registers have its CPU record, the list registers are 0 and ICH_HCR is En.
    pub fn load(self, lrs: u32) -> Loaded
        requires points { HasBinaryPoints self.cpu }
        requires lrs { 1 ≤ lrs × lrs ≤ MAX_LIST_REGISTERS }
        ensures value { result ≡ loaded_of self lrs }
        ensures holds { held_keys result ≡ [] }
        ensures back { shelved_of result ≡ self }
    {
        Loaded {
            regs: IchRegs {
                lr: [0; MAX_LIST_REGISTERS],
                n: lrs,
                vmcr: vmcr_of(&self.cpu),
                hcr: HCR_EN,
                ap0r: self.cpu.ap0,
                ap1r: self.cpu.ap1,
            },
            held: [None; MAX_LIST_REGISTERS],
            trapping: false,
            base: self,
        }
    }
}

impl Loaded {
    /// Whether the vCPU holds no interrupt.
    pub fn holds_nothing(&self) -> bool
        ensures { IsTrue result ↔ (held_keys self.now ≡ []) }
    {
        is_free(&self.held)
    }

    /// The vCPU off the PE, with the CPU record that the registers hold. It has to have given back what it
    /// held.
    pub fn shelve(self) -> Shelved
        requires { held_keys self ≡ [] }
        ensures value { result ≡ shelved_of self }
        ensures points { HasBinaryPoints result.cpu }
    {
        Shelved {
            cpu: cpu_of(&self.regs, self.base.cpu.lpis),
            ..self.base
        }
    }

    /// Puts an interrupt into a free list register of the PE, `place` from 0, and holds it there. Where the
    /// registers stand for an interface place by place, they then do for the one that has this interrupt too.
    pub fn put(&mut self, place: usize, entry: &LrEntry, held: HeldIrq)
        requires place { place < MAX_LIST_REGISTERS }
        requires entry { IsEntry entry.now }
        ensures value { self.new ≡ with_place place (packed entry.now) (Some held) self.old }
        ensures stands { (interface : InterfaceState) (one : AtInterface) (at : List AtInterface) → StandFor self.old.regs self.old.held interface
            → place < self.old.regs.n → slice_index_or self.old.held place None ≡ None → ¬ IsHeld self.old.held held.key
            → StandsAs (packed entry.now) held one → IsWith one interface.at at
            → StandFor self.new.regs self.new.held (record interface { at = at }) }
    {
        self.regs.lr[place] = pack(entry);
        self.held[place] = Some(held);
    }

    /// Clears the list register of a place, and holds nothing there any more. Where the registers stand for an
    /// interface place by place, they then do for the one without the interrupt that was held there.
    pub fn clear(&mut self, place: usize)
        requires place { place < MAX_LIST_REGISTERS }
        ensures value { self.new ≡ with_place place 0 None self.old }
        ensures stands { (interface : InterfaceState) (one : Brought) (at : List AtInterface) → StandFor self.old.regs self.old.held interface
            → slice_index_or self.old.held place None ≡ Some one → IsWithout one.key interface.at at
            → StandFor self.new.regs self.new.held (record interface { at = at }) }
    {
        self.regs.lr[place] = 0;
        self.held[place] = None;
    }

    /// The list register of the interrupt with this INTID. None exactly where the vCPU holds none with it.
    pub fn place_of(&self, id: u32) -> Option<usize>
        ensures value { result ≡ position (has_intid id) self.now.held }
        ensures within { IfSome result (λ place. place < MAX_LIST_REGISTERS) }
        ensures none { IfNone result (All (λ key. intid_of key ≢ id) (held_keys self.now)) }
    {
        place_in(&self.held, id)
    }
}
