//! An actor sends what it owes.
ghost use Rattle.std.specs.Prelude.{◌≡◌, ◌⊎◌, IsTrue, IfSome, IfNone};
ghost use Rattle.floor_core.specs.Words.{has_bit};
ghost use Rattle.floor_core.specs.Core.{owes_no_mark, without_vcpu, shape_of};
ghost use Rattle.port_call.specs.Settle.{vcpus_in, marks_owed, kicks_owed, marks_sent, kicks_sent, IsNextMark, IsFirst, Sends, Settles};

use floor_core::{CoreStep, Key, Local, Port, Targets};

/// The first vCPU of a set: None exactly where it has none.
#[tactic(auto, using(crate::proofs::SetLemmas::first_is))]
fn first_vcpu(set: Targets) -> Option<u32>
    ensures none { IfNone result (set.0 ≡ 0) }
    ensures first { IfSome result (λ vcpu. IsFirst set vcpu) }
{
    if set.0 == 0 {
        None
    } else {
        Some(set.0.trailing_zeros())
    }
}

/// The first mark that is owed: the interrupt, and the vCPU.
fn next_mark(local: &Local) -> Option<(Key, u32)>
    ensures none { IfNone result ((local.now.marks.key ≡ None) ⊎ (local.now.marks.vcpus.0 ≡ 0)) }
    ensures next { IfSome result (λ mark. IsNextMark local.now mark.0 mark.1) }
{
    let key = local.marks.key?;
    let vcpu = first_vcpu(local.marks.vcpus)?;
    Some((key, vcpu))
}

/// Sends the marks that are owed, in rising order of vCPU.
fn send_marks<P: Port>(port: &mut P)
    ensures { Sends (P.seen port.old) (P.seen port.new) (marks_owed (P.seen port.old).local)
        (marks_sent (shape_of (P.seen port.old)) (P.seen port.old).actor (P.seen port.old).local) }
{
    while let Some((key, vcpu)) = next_mark(port.local_ref()) {
        port.step(CoreStep::Mark { key, vcpu });
    }
}

/// Sends the kicks that are owed, in rising order of vCPU, by an actor that owes no mark.
fn send_kicks<P: Port>(port: &mut P)
    requires { IsTrue (owes_no_mark (P.seen port.old).local) }
    ensures { Sends (P.seen port.old) (P.seen port.new) (kicks_owed (P.seen port.old).local) (kicks_sent (P.seen port.old).local) }
{
    while let Some(vcpu) = first_vcpu(port.local_ref().owes) {
        port.step(CoreStep::Kick { vcpu });
    }
}

/// Sends all that the actor owes: the marks, in rising order of vCPU, and then the kicks, in rising order too. It makes
/// as many steps as these sets have vCPUs, and takes no memory.
pub fn settle<P: Port>(port: &mut P)
    ensures { Settles (P.seen port.old) (P.seen port.new) }
{
    send_marks(port);
    send_kicks(port);
}
