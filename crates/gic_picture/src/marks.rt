//! What a picture shows of an interrupt and of a CPU interface in one state.
ghost use Rattle.std.specs.Prelude.{◌≡◌, ◌<◌, All, IsTrue};
ghost use Rattle.scn_base.specs.Standing.{has_vcpu};
ghost use Rattle.ideal_guest.specs.Registers.{running_of};
ghost use Rattle.ideal_guest.specs.Sound.{IsSound};
ghost use Rattle.gic_ideal.specs.Eager.{state_shapes};
ghost use Rattle.gic_picture.specs.Names.{is_there};
ghost use Rattle.gic_picture.specs.Marks.{irq_in as irq_at_name, mark_of as mark_of_irq, mark_in as mark_at_name, is_marked as has_mark, cpu_mark_of as cpu_mark_at, cpu_mark_in as cpu_mark_at_name};

use crate::names::IrqName;
use crate::signal::is_signalled;
use gic_ideal::{IdealGuest, VcpuName};
use ideal_guest::{CpuRec, Group, IccReg, Irq, pending, read_plain};

/// What is shown of an interrupt.
#[derive(Clone, Copy, Debug, PartialEq, Eq, Hash)]
pub struct Mark {
    /// It is pending.
    pub pending: bool,
    /// The vCPU by which it is active, if it is.
    pub active_by: Option<u32>,
    /// It is level-sensitive, and its wire is up.
    pub line: bool,
}

/// What is shown of a vCPU's CPU interface.
#[derive(Clone, Copy, Debug, PartialEq, Eq, Hash)]
pub struct CpuMark {
    /// ICC_PMR: the priority mask, 0 to 255.
    pub pmr: u8,
    /// ICC_RPR: the running priority, 0 to 248, or 255 where no priority is active.
    pub running: u64,
    /// An interrupt of group 1 is signalled: a read of IAR1 would acknowledge one.
    pub irq: bool,
    /// An interrupt of group 0 is signalled: a read of IAR0 would acknowledge one.
    pub fiq: bool,
}

/// The record of an interrupt.
pub(crate) fn irq_in(guests: &[IdealGuest], name: IrqName) -> Irq
    requires sound { All IsSound guests.now }
    requires there { IsTrue (is_there (state_shapes guests.now) name) }
    ensures { result ≡ irq_at_name guests.now name }
{
    guests[name.guest as usize].irq(name.key)
}

/// What is shown of a record.
pub(crate) fn mark_of(irq: &Irq) -> Mark
    ensures { result ≡ mark_of_irq irq.now }
{
    Mark {
        pending: pending(irq),
        active_by: irq.act_by,
        line: !irq.edge && irq.line,
    }
}

impl Mark {
    /// Whether there is something to show: the interrupt is pending or active, or its wire is up.
    pub fn is_marked(&self) -> bool
        ensures { result ≡ has_mark self.now }
    {
        self.pending || self.active_by.is_some() || self.line
    }
}

/// What is shown of an interrupt.
pub(crate) fn mark_in(guests: &[IdealGuest], name: IrqName) -> Mark
    requires sound { All IsSound guests.now }
    requires there { IsTrue (is_there (state_shapes guests.now) name) }
    ensures { result ≡ mark_at_name guests.now name }
{
    mark_of(&irq_in(guests, name))
}

/// The running priority of a CPU interface.
fn running(cpu: &CpuRec) -> u64
    ensures { result ≡ running_of cpu.now }
{
    read_plain(cpu, IccReg::Rpr).unwrap_or(0)
}

/// What is shown of a vCPU's CPU interface.
fn cpu_mark_of(guest: &IdealGuest, vcpu: u32) -> CpuMark
    requires sound { IsSound guest.now }
    requires there { vcpu < guest.now.shape.vcpus }
    ensures { result ≡ cpu_mark_at guest.now vcpu }
{
    let cpu = guest.cpu(vcpu);
    CpuMark {
        pmr: cpu.pmr,
        running: running(&cpu),
        irq: is_signalled(guest, vcpu, Group::G1),
        fiq: is_signalled(guest, vcpu, Group::G0),
    }
}

/// The same of a vCPU of one of the guests.
pub(crate) fn cpu_mark_in(guests: &[IdealGuest], name: VcpuName) -> CpuMark
    requires sound { All IsSound guests.now }
    requires there { IsTrue (has_vcpu (state_shapes guests.now) name.guest name.vcpu) }
    ensures { result ≡ cpu_mark_at_name guests.now name }
{
    cpu_mark_of(&guests[name.guest as usize], name.vcpu)
}
