//! What the moves between the distributor and a CPU interface do to one interrupt. Raise and the wire's moves are
//! `gic_word`'s, acknowledge and deactivation at the interface are `gic_prio`'s.
ghost use Rattle.std.specs.Prelude.{◌≡◌, ◌<◌};
ghost use Rattle.floor_registers.specs.Words.{GuestShape, Key, IsShape, IsRecordOf, IsHome};
ghost use Rattle.gic_call.specs.Move.{may_reach as can_reach, may_take as can_take, reached as reached_of, taken as taken_of, left as left_of, IsMovedOf};

use floor_registers::{CpuRec, Irq, Key, deliverable};

/// What a CPU interface has of an interrupt that is there, as a list register holds it.
#[derive(Clone, Copy, Debug, PartialEq, Eq, Hash)]
pub struct Entry {
    /// Not acknowledged yet, or pending again while it is active.
    pub pending: bool,
    /// Acknowledged and not deactivated yet.
    pub active: bool,
    /// The wire's rise that came with the interrupt, until an acknowledge consumes it.
    pub rise: bool,
    /// The cause by software that came with it, likewise.
    pub soft: bool,
}

/// An interrupt at a CPU interface: its record, and what the interface has of it.
#[derive(Clone, Copy, Debug, PartialEq, Eq, Hash)]
pub struct Moved {
    pub irq: Irq,
    pub entry: Entry,
}

/// Whether an interrupt that is at no interface may get to this vCPU's: it is deliverable to the vCPU, or active
/// by it.
pub fn may_reach(key: Key, irq: &Irq, vcpu: u32, cpu: &CpuRec) -> bool
    ensures { (shape : GuestShape) → vcpu < shape.vcpus → result ≡ can_reach shape key irq.now vcpu cpu.now }
{
    irq.act_by == Some(vcpu) || deliverable(key, irq, vcpu, cpu)
}

/// Whether an interrupt at this vCPU's interface, which is active there and not pending, may become pending
/// there too: it would be deliverable to the vCPU if it were not active.
pub fn may_take(key: Key, moved: &Moved, vcpu: u32, cpu: &CpuRec) -> bool
    ensures { (shape : GuestShape) → vcpu < shape.vcpus → result ≡ can_take shape key moved.now vcpu cpu.now }
{
    let inactive = Irq {
        act_by: None,
        ..moved.irq
    };
    moved.entry.active && !moved.entry.pending && deliverable(key, &inactive, vcpu, cpu)
}

impl Moved {
    /// The interrupt after it got to an interface: pending there with its latched causes, which the record
    /// loses, or active there and without causes, which the record keeps.
    #[tactic(auto, using(crate::proofs::MoveLemmas::reached_valid))]
    pub fn reached(irq: &Irq) -> Moved
        ensures value { result ≡ reached_of irq.now }
        ensures valid { (shape : GuestShape) (key : Key) → IsRecordOf shape key irq.now → IsMovedOf shape key result }
        ensures home { IsHome irq.now → IsHome result.irq }
    {
        let active = irq.act_by.is_some();
        if active {
            return Moved {
                irq: *irq,
                entry: Entry {
                    pending: false,
                    active,
                    rise: false,
                    soft: false,
                },
            };
        }
        Moved {
            irq: irq.cleared(),
            entry: Entry {
                pending: true,
                active,
                rise: irq.rise,
                soft: irq.soft,
            },
        }
    }

    /// The interrupt after an active one became pending at its interface too, with its latched causes, which
    /// the record loses.
    #[tactic(auto, using(crate::proofs::MoveLemmas::taken_valid))]
    pub fn taken(self) -> Moved
        ensures value { result ≡ taken_of self }
        ensures valid { (shape : GuestShape) (key : Key) → IsMovedOf shape key self → IsMovedOf shape key result }
        ensures home { IsHome self.irq → IsHome result.irq }
    {
        Moved {
            irq: self.irq.cleared(),
            entry: Entry {
                pending: true,
                rise: self.irq.rise,
                soft: self.irq.soft,
                ..self.entry
            },
        }
    }

    /// The record after the interrupt left the interface of this vCPU: it gets back the latched causes that are
    /// there, and is active by the vCPU exactly where it is active there.
    #[tactic(auto, using(crate::proofs::MoveLemmas::left_valid))]
    pub fn left(self, vcpu: u32) -> Irq
        ensures value { result ≡ left_of vcpu self }
        ensures valid { (shape : GuestShape) (key : Key) → IsShape shape → vcpu < shape.vcpus → IsMovedOf shape key self → IsRecordOf shape key result }
        ensures home { IsHome self.irq → IsHome result }
    {
        Irq {
            rise: self.irq.rise || self.entry.rise,
            soft: self.irq.soft || self.entry.soft,
            act_by: self.entry.active.then_some(vcpu),
            ..self.irq
        }
    }
}
