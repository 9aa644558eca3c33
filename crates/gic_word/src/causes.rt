//! What happens to the record of an interrupt (IHI 0069, "Interrupt handling state machine").
ghost use Rattle.std.specs.Prelude.{◌≡◌, ◌<◌};
ghost use Rattle.gic_base.specs.declared.shape.GuestShape.{GuestShape};
ghost use Rattle.gic_base.specs.declared.interrupt.Key.{Key};
ghost use Rattle.gic_base.specs.Shape.{IsShape};
ghost use Rattle.gic_word.specs.Valid.{IsRecordOf};
ghost use Rattle.gic_word.specs.Causes.{raised as raised_of, wire_up as wire_up_of, wire_down as wire_down_of, cleared as cleared_of, has_active_state as is_active_after, acknowledged as acknowledged_of, deactivated as deactivated_of};

use crate::record::Irq;
use gic_base::Key;

/// Whether an acknowledge makes the interrupt active: not an LPI, which has no active state.
pub fn has_active_state(key: Key) -> bool
    ensures { result ≡ is_active_after key }
{
    match key {
        Key::Private { .. } | Key::Spi(_) => true,
        Key::Lpi(_) => false,
    }
}

impl Irq {
    /// The record after a register, a message, an SGI, an INT command or an MSI pended the interrupt.
    #[tactic(auto, using(crate::proofs::ValidLemmas::valid_raised))]
    pub fn raised(self) -> Irq
        ensures value { result ≡ raised_of self }
        ensures valid { (shape : GuestShape) (key : Key) → IsRecordOf shape key self → IsRecordOf shape key result }
    {
        Irq { soft: true, ..self }
    }

    /// The record after the wire went up, which is a rise whichever way the interrupt is configured.
    #[tactic(auto, using(crate::proofs::ValidLemmas::valid_wire_up))]
    pub fn wire_up(self) -> Irq
        ensures value { result ≡ wire_up_of self }
        ensures valid { (shape : GuestShape) (key : Key) → IsRecordOf shape key self → IsRecordOf shape key result }
    {
        Irq {
            line: true,
            rise: true,
            ..self
        }
    }

    /// The record after the wire went down.
    #[tactic(auto, using(crate::proofs::ValidLemmas::valid_wire_down))]
    pub fn wire_down(self) -> Irq
        ensures value { result ≡ wire_down_of self }
        ensures valid { (shape : GuestShape) (key : Key) → IsRecordOf shape key self → IsRecordOf shape key result }
    {
        Irq {
            line: false,
            ..self
        }
    }

    /// The record after its pending state was cleared: the latched causes go, the wire stays (IHI 0069,
    /// GICD_ICPENDR).
    #[tactic(auto, using(crate::proofs::ValidLemmas::valid_cleared))]
    pub fn cleared(self) -> Irq
        ensures value { result ≡ cleared_of self }
        ensures valid { (shape : GuestShape) (key : Key) → IsRecordOf shape key self → IsRecordOf shape key result }
    {
        Irq {
            rise: false,
            soft: false,
            ..self
        }
    }

    /// The record after this vCPU acknowledged the interrupt: its latched causes are consumed, and it is
    /// active by the vCPU, or inactive for an LPI.
    #[tactic(auto, using(crate::proofs::ValidLemmas::valid_acknowledged))]
    pub fn acknowledged(self, key: Key, vcpu: u32) -> Irq
        ensures value { result ≡ acknowledged_of key vcpu self }
        ensures valid { (shape : GuestShape) → IsShape shape → vcpu < shape.vcpus → IsRecordOf shape key self → IsRecordOf shape key result }
    {
        Irq {
            act_by: has_active_state(key).then_some(vcpu),
            ..self.cleared()
        }
    }

    /// The record after this vCPU deactivated the interrupt: inactive, if it was active by this vCPU, and
    /// otherwise as it was.
    #[tactic(auto, using(crate::proofs::ValidLemmas::valid_deactivated))]
    pub fn deactivated(self, vcpu: u32) -> Irq
        ensures value { result ≡ deactivated_of vcpu self }
        ensures valid { (shape : GuestShape) (key : Key) → IsRecordOf shape key self → IsRecordOf shape key result }
    {
        if self.act_by == Some(vcpu) {
            return Irq {
                act_by: None,
                ..self
            };
        }
        self
    }
}
