//! Where a vCPU is, over a port that is the vCPU's.
ghost use Rattle.std.specs.Prelude.{◌≡◌, ℕ, ◌≤◌, ◌∷◌, true, false, take};
ghost use Rattle.gic_msi.specs.Words.{MAX_LIST_REGISTERS};
ghost use Rattle.gic_msi.specs.Core.{is_vcpu, shape_of};
ghost use Rattle.pe_op.specs.PeLoop.Stay.{IsUp};
ghost use Rattle.pe_place.specs.declared.place.Place.TheVariants.{Pe as OnPe};
ghost use Rattle.pe_place.specs.Parts.{AreResidences};
ghost use Rattle.pe_place.specs.Place.{pe, spot_of, entered, left, gone_aside, returned, IsAt, HasRegisters, IsShown, IsRoom};
ghost use Rattle.pe_place.specs.Moves.{Moves, Reenters, ReentersAt, LooksForKick, WasNotKicked};

use gic_msi::{CoreStep, LrList, Port, VcpuWord, WordId};
use pe_op::{Loaded, Shelved, copy_of, enter, leave};

/// Where a vCPU is between two calls.
#[derive(Debug, Drop)]
pub enum Place {
    /// It stands on no PE.
    Shelf(Shelved),
    /// It stands on a PE, but has left it while another vCPU accesses a register.
    Aside(Shelved),
    /// It is on a PE.
    Pe(Loaded),
}

/// The vCPU as it is on no PE.
fn copy_of_shelved(vcpu: &Shelved) -> Shelved
    ensures { result ≡ vcpu.now }
{
    Shelved {
        guest: vcpu.guest,
        vcpu: vcpu.vcpu,
        cpu: vcpu.cpu,
        next: vcpu.next,
    }
}

/// The vCPU enters a PE with this many list registers (1 to 16), where it stands on none.
pub fn enter_pe<P: Port>(port: &mut P, place: &mut Place, lrs: u32)
    requires at { IsAt (P.seen port.old) place.old }
    requires registers { HasRegisters lrs place.old }
    requires lrs { 1 ≤ lrs × lrs ≤ MAX_LIST_REGISTERS }
    ensures moves { Moves AreResidences (P.seen port.old) (P.seen port.new) place.old place.new }
    ensures spot { spot_of place.new ≡ entered (spot_of place.old) }
    ensures registers { HasRegisters lrs place.new }
{
    if let Place::Shelf(vcpu) = place {
        *place = Place::Pe(enter(port, copy_of_shelved(vcpu), lrs));
    }
}

/// The vCPU leaves its PE, where it is on one.
pub fn leave_pe<P: Port>(port: &mut P, place: &mut Place)
    requires { IsAt (P.seen port.old) place.old }
    ensures moves { Moves AreResidences (P.seen port.old) (P.seen port.new) place.old place.new }
    ensures spot { spot_of place.new ≡ left (spot_of place.old) }
    ensures registers { (lrs : ℕ) → HasRegisters lrs place.new }
{
    if let Place::Pe(vcpu) = place {
        *place = Place::Shelf(leave(port, copy_of(vcpu)));
    }
}

/// The vCPU leaves its PE for a while, where it is on one.
pub fn step_aside<P: Port>(port: &mut P, place: &mut Place)
    requires { IsAt (P.seen port.old) place.old }
    ensures moves { Moves AreResidences (P.seen port.old) (P.seen port.new) place.old place.new }
    ensures spot { spot_of place.new ≡ gone_aside (spot_of place.old) }
    ensures registers { (lrs : ℕ) → HasRegisters lrs place.new }
{
    if let Place::Pe(vcpu) = place {
        *place = Place::Aside(leave(port, copy_of(vcpu)));
    }
}

/// The vCPU enters its PE again, with this many list registers (1 to 16), where it had left it for a while.
pub fn come_back<P: Port>(port: &mut P, place: &mut Place, lrs: u32)
    requires at { IsAt (P.seen port.old) place.old }
    requires registers { HasRegisters lrs place.old }
    requires lrs { 1 ≤ lrs × lrs ≤ MAX_LIST_REGISTERS }
    ensures moves { Moves AreResidences (P.seen port.old) (P.seen port.new) place.old place.new }
    ensures spot { spot_of place.new ≡ returned (spot_of place.old) }
    ensures registers { HasRegisters lrs place.new }
{
    if let Place::Aside(vcpu) = place {
        *place = Place::Pe(enter(port, copy_of_shelved(vcpu), lrs));
    }
}

/// The vCPU leaves its PE, and enters it again with as many list registers.
fn reenter<P: Port>(port: &mut P, vcpu: &mut Loaded)
    requires { IsUp (P.seen port.old) vcpu.old }
    ensures reenters { Reenters (P.seen port.old) (P.seen port.new) vcpu.old vcpu.new }
    ensures registers { vcpu.new.regs.n ≡ vcpu.old.regs.n }
{
    let lrs = vcpu.regs.n;
    let shelved = leave(port, copy_of(vcpu));
    *vcpu = enter(port, shelved, lrs);
}

/// ICH_HCR, and then each list register of the vCPU's PE, in a list that has room for them.
fn registers(vcpu: &Loaded, room: Vec<u64>) -> LrList
    requires few { vcpu.now.regs.n ≤ MAX_LIST_REGISTERS }
    requires room { IsRoom room }
    ensures { result ≡ vcpu.now.regs.hcr ∷ take vcpu.now.regs.n vcpu.now.regs.lr }
{
    let mut list = room;
    list.push_reserved(u64::from(vcpu.regs.hcr));
    for word in &vcpu.regs.lr[..vcpu.regs.n as usize] {
        list.push_reserved(*word);
    }
    LrList::from(list)
}

/// The vCPU, which is on a PE, leaves it and enters it again: ICH_HCR and the list registers of the PE then, in a list that has room
/// for them.
pub fn show_pe<P: Port>(port: &mut P, place: &mut Place, room: Vec<u64>) -> LrList
    requires at { IsAt (P.seen port.old) place.old }
    requires on { spot_of place.old ≡ pe }
    requires room { IsRoom room }
    ensures reenters { ReentersAt (P.seen port.old) (P.seen port.new) place.old place.new }
    ensures spot { spot_of place.new ≡ spot_of place.old }
    ensures registers { (lrs : ℕ) → HasRegisters lrs place.old → HasRegisters lrs place.new }
    ensures shown { IsShown place.new result }
{
    match place {
        Place::Pe(vcpu) => {
            reenter(port, vcpu);
            registers(vcpu, room)
        }
        Place::Shelf(_) | Place::Aside(_) => unreachable!(),
    }
}

/// Whether the vCPU is kicked, by a look at its own word.
fn is_kicked<P: Port>(port: &mut P) -> bool
    requires { is_vcpu (shape_of (P.seen port.old)) (P.seen port.old).actor ≡ true }
    ensures { LooksForKick (P.seen port.old) (P.seen port.new) result }
{
    let word = WordId::Vcpu(port.actor());
    VcpuWord::of(port.step(CoreStep::Look { word })).kick
}

/// The vCPU leaves its PE and enters it again, where it is kicked: whether it is.
fn reenter_if_kicked<P: Port>(port: &mut P, vcpu: &mut Loaded) -> bool
    requires { IsUp (P.seen port.old) vcpu.old }
    ensures moves { Moves AreResidences (P.seen port.old) (P.seen port.new) (OnPe vcpu.old) (OnPe vcpu.new) }
    ensures registers { vcpu.new.regs.n ≡ vcpu.old.regs.n }
    ensures quiet { result ≡ false → WasNotKicked (P.seen port.old) (P.seen port.new) (OnPe vcpu.old) (OnPe vcpu.new) }
{
    let kicked = is_kicked(port);
    if kicked {
        reenter(port, vcpu);
    }
    kicked
}

/// The vCPU leaves its PE and enters it again, where it is on one and kicked: whether it did.
pub fn answer_kick<P: Port>(port: &mut P, place: &mut Place) -> bool
    requires { IsAt (P.seen port.old) place.old }
    ensures moves { Moves AreResidences (P.seen port.old) (P.seen port.new) place.old place.new }
    ensures spot { spot_of place.new ≡ spot_of place.old }
    ensures registers { (lrs : ℕ) → HasRegisters lrs place.old → HasRegisters lrs place.new }
    ensures quiet { result ≡ false → WasNotKicked (P.seen port.old) (P.seen port.new) place.old place.new }
{
    match place {
        Place::Pe(vcpu) => reenter_if_kicked(port, vcpu),
        Place::Shelf(_) | Place::Aside(_) => false,
    }
}
