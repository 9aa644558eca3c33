//! A vCPU leaves its PE.
ghost use Rattle.std.specs.Prelude.{◌≡◌, IsTrue};
ghost use Rattle.port_call.specs.Core.{CanGiveBack, owes_nothing, shape_of, is_vcpu};
ghost use Rattle.pe_loop.specs.Stay.{IsOn};
ghost use Rattle.pe_loop.specs.Leave.{Releases, CanReleaseHeld, ReleasesHeld, Leaves};
ghost use Rattle.port_call.specs.Words.{has_interrupt};
ghost use Rattle.vcpu_state.specs.Moves.{shelved_of};

use port_call::{CoreStep, Key, Port, settle};
use vcpu_state::{GuestBack as Back, HeldIrq, Loaded, MAX_LIST_REGISTERS, Shelved, fold};

/// Gives back what the vCPU's interface has of an interrupt, releases it, and sends what is owed for it.
fn release<P: Port>(port: &mut P, key: Key, back: Back)
    requires vcpu { IsTrue (is_vcpu (shape_of (P.seen port.old)) (P.seen port.old).actor) }
    requires there { IsTrue (has_interrupt (shape_of (P.seen port.old)) key) }
    requires can { CanGiveBack key back (P.seen port.old).local }
    requires owes { IsTrue (owes_nothing (P.seen port.old).local) }
    ensures { Releases (P.seen port.old) (P.seen port.new) key back }
{
    port.step(CoreStep::GiveBack { key, back });
    port.step(CoreStep::Release { key });
    settle(port);
}

/// Gives back and releases what is held at a place, if anything is, with what comes back of it.
fn release_held<P: Port>(port: &mut P, held: Option<HeldIrq>, back: Option<Back>)
    requires vcpu { IsTrue (is_vcpu (shape_of (P.seen port.old)) (P.seen port.old).actor) }
    requires can { CanReleaseHeld (P.seen port.old) held back }
    requires owes { IsTrue (owes_nothing (P.seen port.old).local) }
    ensures { ReleasesHeld (P.seen port.old) (P.seen port.new) held }
{
    if let (Some(held), Some(back)) = (held, back) {
        release(port, held.key, back);
    }
}

/// Takes a vCPU off its PE: each interrupt that it holds goes back to the distributor, with the causes that no acknowledge
/// consumed and its active state, and the vCPUs that this concerns are told before it returns. What is answered has the
/// CPU record that the registers hold. The port is the vCPU's, which owes nothing. It takes no memory.
pub fn leave<P: Port>(port: &mut P, vcpu: Loaded) -> Shelved
    requires { IsOn (P.seen port.old) vcpu }
    ensures value { result ≡ shelved_of vcpu }
    ensures leaves { Leaves (P.seen port.old) (P.seen port.new) vcpu result }
{
    let backs = fold(&vcpu.regs, &vcpu.held);
    for place in 0..MAX_LIST_REGISTERS {
        release_held(port, vcpu.held[place], backs[place]);
    }
    Loaded {
        held: [None; MAX_LIST_REGISTERS],
        ..vcpu
    }
    .shelve()
}
