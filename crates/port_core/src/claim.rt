//! Claims: an interrupt gets to a vCPU's interface, or brings its causes.
ghost use Rattle.std.specs.Prelude.{◌≡◌, ◌<◌, IsTrue, IfSome};
ghost use Rattle.core_words.specs.Words.{max_vcpus, IsIrq};
ghost use Rattle.port_core.specs.Effect.{may_hold as can_hold, may_move as can_move, moved_irq};

use crate::local::Local;
use core_words::{GuestShape, Irq, Key, Moved, may_reach, may_take};

/// Whether nobody waits for an interrupt, or it is active by the vCPU, which alone can end it.
fn may_hold(irq: &Irq, vcpu: u32) -> bool
    ensures { result ≡ can_hold vcpu irq.now }
{
    !irq.want || irq.act_by == Some(vcpu)
}

impl Local {
    /// Whether a vCPU may claim an interrupt whose record it saw: nobody holds it, and it may reach the vCPU and be
    /// held; or the vCPU holds it, and may take its causes.
    pub fn may_claim(&self, key: Key, irq: &Irq, vcpu: u32, shape: &GuestShape) -> bool
        requires { vcpu < shape.now.vcpus }
        ensures { result ≡ can_move shape.now vcpu self.now key irq.now }
    {
        match self.at.find(key) {
            Some(entry) => {
                let moved = Moved {
                    irq: *irq,
                    entry: entry.entry(),
                };
                irq.holder == Some(vcpu) && may_take(key, &moved, vcpu, &self.cpu)
            }
            None => {
                irq.holder.is_none() && may_reach(key, irq, vcpu, &self.cpu) && may_hold(irq, vcpu)
            }
        }
    }

    /// An interrupt after the claim, held by the vCPU, with what the interface has of it.
    #[tactic(auto, using(crate::proofs::AtomicLemmas::moved_packable))]
    pub fn claimed(&self, key: Key, irq: &Irq, vcpu: u32) -> Moved
        ensures value { result ≡ moved_irq vcpu self.now key irq.now }
        ensures packable { vcpu < max_vcpus → IsIrq irq.now → IsIrq result.irq }
    {
        match self.at.find(key) {
            Some(entry) => Moved {
                irq: *irq,
                entry: entry.entry(),
            }
            .taken(),
            None => {
                let moved = Moved::reached(irq);
                Moved {
                    irq: Irq {
                        holder: Some(vcpu),
                        ..moved.irq
                    },
                    ..moved
                }
            }
        }
    }
}
