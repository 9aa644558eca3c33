//! The claims of a vCPU's plan.
ghost use Rattle.std.specs.Prelude.{◌≡◌, ◌<◌, true, IsTrue, IfSome};
ghost use Rattle.port_call.specs.Lists.{IsEntry, HasEntries};
ghost use Rattle.port_call.specs.Words.{IsIrq, packed};
ghost use Rattle.port_call.specs.Core.{Claim, may_move, CanMake, shape_of};
ghost use Rattle.pe_loop.specs.Claiming.{Claims, IsClaimable, IsTakeable, TakesCauses, ClaimsChosen, without_causes as without_causes_of, ClaimsSome, CanClaimAt, ClaimsAt, IsPlanOf, IsBlank, ClaimsAll};

use port_call::{Choice, CoreStep, Fill, Irq, Key, Port};
use vcpu_state::{Loaded, LrEntry, LrState, MAX_LIST_REGISTERS, pack};

/// What came of the claim of an interrupt that was chosen for a list register.
#[derive(Clone, Copy, Debug, PartialEq, Eq)]
pub enum Claimed {
    /// All of it is at the interface.
    Whole,
    /// It is at the interface, active, and its causes stayed behind.
    Bare,
    /// It is not at the interface.
    Missed,
}

/// Claims an interrupt whose record was seen, where its word is still that: whether it is.
pub fn claim<P: Port>(port: &mut P, key: Key, irq: &Irq) -> bool
    requires packable { IsIrq irq.now }
    requires can { CanMake (P.seen port.old) (Claim key (packed irq.now)) }
    requires may { may_move (shape_of (P.seen port.old)) (P.seen port.old).actor (P.seen port.old).local key irq.now ≡ true }
    ensures { Claims (P.seen port.old) (P.seen port.new) key irq.now result }
{
    let seen = pack(irq);
    port.step(CoreStep::Claim { key, seen }) == seen
}

/// Takes the causes of an interrupt that was claimed with its active state.
fn take_causes<P: Port>(port: &mut P, choice: &Choice) -> Claimed
    requires { IsTakeable (P.seen port.old) choice.now }
    ensures { TakesCauses (P.seen port.old) (P.seen port.new) choice.now result }
{
    let held = Irq {
        holder: Some(port.actor()),
        ..choice.irq
    };
    if claim(port, choice.key, &held) {
        Claimed::Whole
    } else {
        Claimed::Bare
    }
}

/// Claims what was chosen for a list register, and takes its causes where that has State 3.
fn claim_chosen<P: Port>(port: &mut P, choice: &Choice) -> Claimed
    requires { IsClaimable (P.seen port.old) choice.now }
    ensures { ClaimsChosen (P.seen port.old) (P.seen port.new) choice.now result }
{
    if !claim(port, choice.key, &choice.irq) {
        return Claimed::Missed;
    }
    match choice.entry.state {
        LrState::Both => take_causes(port, choice),
        LrState::Invalid | LrState::Pending | LrState::Active => Claimed::Whole,
    }
}

/// The choice with State 2, and so without causes.
fn without_causes(choice: &Choice) -> Choice
    ensures value { result ≡ without_causes_of choice.now }
    ensures entry { IsEntry choice.now.entry → IsEntry result.entry }
{
    Choice {
        entry: LrEntry {
            state: LrState::Active,
            ..choice.entry
        },
        ..*choice
    }
}

/// Claims what was chosen for a list register (0 to 15), and stores there what of it came to the interface: whether not all
/// came.
pub fn claim_into<P: Port>(port: &mut P, vcpu: &mut Loaded, place: usize, choice: &Choice) -> bool
    requires can { IsClaimable (P.seen port.old) choice.now }
    requires place { place < MAX_LIST_REGISTERS }
    requires entry { IsEntry choice.now.entry }
    ensures { ClaimsSome (P.seen port.old) (P.seen port.new) place choice.now vcpu.old vcpu.new result }
{
    match claim_chosen(port, choice) {
        Claimed::Whole => {
            vcpu.put(place, &choice.entry, choice.held());
            false
        }
        Claimed::Bare => {
            let bare = without_causes(choice);
            vcpu.put(place, &bare.entry, bare.held());
            true
        }
        Claimed::Missed => true,
    }
}

/// Claims what was chosen for a place, if anything was: whether not all of it came.
fn claim_place<P: Port>(
    port: &mut P,
    vcpu: &mut Loaded,
    place: usize,
    choice: &Option<Choice>,
) -> bool
    requires can { CanClaimAt (P.seen port.old) choice.now }
    requires place { place < MAX_LIST_REGISTERS }
    requires entry { IfSome choice.now (λ choice. IsEntry choice.entry) }
    ensures { ClaimsAt (P.seen port.old) (P.seen port.new) place choice.now vcpu.old vcpu.new result }
{
    match choice {
        Some(choice) => claim_into(port, vcpu, place, choice),
        None => false,
    }
}

/// Claims what a plan has, by the places of list registers, and stores what of it came to the interface: whether not all came.
pub(crate) fn claim_all<P: Port>(port: &mut P, vcpu: &mut Loaded, fill: &Fill) -> bool
    requires plan { IsPlanOf (P.seen port.old) vcpu.old.regs.n fill.now }
    requires entries { HasEntries fill.now.choice }
    requires blank { IsBlank (P.seen port.old) fill.now vcpu.old }
    ensures { ClaimsAll (P.seen port.old) (P.seen port.new) fill.now vcpu.old vcpu.new result }
{
    let mut failed = false;
    for place in 0..MAX_LIST_REGISTERS {
        failed |= claim_place(port, vcpu, place, &fill.choice[place]);
    }
    failed
}
