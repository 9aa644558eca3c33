//! Group priority, running priority and what is signalled (IHI 0069, "Interrupt prioritization").
ghost use Rattle.std.specs.Prelude.{◌≡◌};
ghost use Rattle.gic_prio.specs.Priority.{HasBinaryPoints, group_priority_of, running_of, is_signalled};

use crate::cpu::CpuRec;
use crate::levels::{LEVELS, least};
use floor_words::{Group, PRIORITY_STEP};

/// The running priority where no level is active.
pub const IDLE_PRIORITY: u8 = 0xFF;
/// The first INTID that names no interrupt.
pub const FIRST_SPECIAL: u32 = 1020;
/// The INTID that is read where there is no interrupt, and the last special one.
pub const SPURIOUS: u32 = 1023;

/// The group priority of an interrupt: the bits of its priority (0 to 255) that the binary point of its
/// group keeps (IHI 0069, "Priority grouping").
pub fn group_priority(prio: u8, group: Group, cpu: &CpuRec) -> u8
    requires { HasBinaryPoints cpu.now }
    ensures { result ≡ group_priority_of prio group cpu.now }
{
    let dropped = match group {
        Group::G1 if !cpu.cbpr => cpu.bpr1,
        Group::G0 | Group::G1 => cpu.bpr0 + 1,
    };
    if dropped > 7 {
        return 0;
    }
    (prio >> dropped) << dropped
}

/// The running priority: that of the least active level, or 0xFF where none is active (IHI 0069,
/// "Preemption").
pub fn running(cpu: &CpuRec) -> u8
    ensures { result ≡ running_of cpu.now }
{
    let level = least(cpu.ap0).min(least(cpu.ap1));
    if level == LEVELS {
        return IDLE_PRIORITY;
    }
    level as u8 * PRIORITY_STEP
}

/// Whether an interrupt of this priority and group is signalled to the vCPU: its priority is above the
/// mask, and its group priority above the running priority (IHI 0069, "Interrupt prioritization").
pub fn signalled(prio: u8, group: Group, cpu: &CpuRec) -> bool
    requires { HasBinaryPoints cpu.now }
    ensures { result ≡ is_signalled prio group cpu.now }
{
    prio < cpu.pmr && group_priority(prio, group, cpu) < running(cpu)
}
