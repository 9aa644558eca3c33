//! Which interrupts can be delivered to a vCPU (IHI 0069, "Interrupt prioritization").
ghost use Rattle.std.specs.Prelude.{◌≡◌, ◌<◌};
ghost use Rattle.floor_words.specs.Words.{GuestShape};
ghost use Rattle.gic_prio.specs.Delivery.{is_group_enabled, is_deliverable};

use crate::cpu::CpuRec;
use floor_words::{Group, Irq, Key, ripe};

/// Whether the vCPU listens to a group (IHI 0069, ICC_IGRPEN0 and ICC_IGRPEN1).
pub fn listens(cpu: &CpuRec, group: Group) -> bool
    ensures { result ≡ is_group_enabled group cpu.now }
{
    match group {
        Group::G0 => cpu.en0,
        Group::G1 => cpu.en1,
    }
}

/// Whether an interrupt can be delivered to a vCPU of its guest: it would be but for the vCPU, it is not active,
/// and the vCPU listens to its group, and to LPIs where it is one. The guest's shape does not matter.
pub fn deliverable(key: Key, irq: &Irq, vcpu: u32, cpu: &CpuRec) -> bool
    ensures { (shape : GuestShape) → vcpu < shape.vcpus → result ≡ is_deliverable key irq.now vcpu cpu.now shape }
{
    let takes_kind = match key {
        Key::Private { .. } | Key::Spi(_) => true,
        Key::Lpi(_) => cpu.lpis,
    };
    ripe(irq, vcpu) && irq.act_by.is_none() && listens(cpu, irq.group) && takes_kind
}
