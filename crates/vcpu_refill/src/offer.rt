//! An interrupt that may be chosen.
ghost use Rattle.std.specs.Prelude.{◌≡◌, ◌<◌};
ghost use Rattle.gic_ich.specs.Words.{GuestShape};
ghost use Rattle.gic_ich.specs.GicPrio.Delivery.{is_before, is_deliverable as can_be_delivered};
ghost use Rattle.vcpu_refill.specs.Order.{goes_before as is_ahead, is_active_by, is_deliverable_to};

use gic_ich::{Candidate, CpuRec, Irq, Key, deliverable};

/// An interrupt of the guest that may be chosen for a list register.
#[derive(Clone, Copy, Debug, PartialEq, Eq)]
pub struct Offer {
    pub key: Key,
    /// The interrupt's record.
    pub irq: Irq,
}

impl Offer {
    ghost use Rattle.std.specs.Prelude.{None};
    ghost use Rattle.vcpu_refill.specs.Order.{candidate_of, is_deliverable_once_inactive};

    fn candidate(&self) -> Candidate
        ensures { result ≡ candidate_of self.now }
    {
        Candidate {
            id: self.key.intid(),
            prio: self.irq.prio,
            group: self.irq.group,
        }
    }

    /// Whether this interrupt is delivered before another.
    pub(crate) fn goes_before(&self, other: &Offer) -> bool
        ensures { result ≡ is_ahead self.now other.now }
    {
        self.candidate().is_before(&other.candidate())
    }

    /// Whether the interrupt is active by the vCPU.
    pub(crate) fn is_active_by(&self, vcpu: u32) -> bool
        ensures { result ≡ is_active_by vcpu self.now }
    {
        self.irq.act_by == Some(vcpu)
    }

    /// Whether the interrupt would be deliverable to the vCPU, were it not active.
    pub(crate) fn would_be_deliverable(&self, vcpu: u32, cpu: &CpuRec) -> bool
        ensures { (shape : GuestShape) → vcpu < shape.vcpus → result ≡ is_deliverable_once_inactive vcpu cpu.now shape self.now }
    {
        let inactive = Irq {
            act_by: None,
            ..self.irq
        };
        deliverable(self.key, &inactive, vcpu, cpu)
    }

    /// Whether the interrupt is deliverable to the vCPU.
    pub(crate) fn is_deliverable_to(&self, vcpu: u32, cpu: &CpuRec) -> bool
        ensures { (shape : GuestShape) → vcpu < shape.vcpus → result ≡ is_deliverable_to vcpu cpu.now shape self.now }
    {
        deliverable(self.key, &self.irq, vcpu, cpu)
    }
}
