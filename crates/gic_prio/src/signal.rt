//! What an acknowledge, an end of interrupt and a deactivation do (IHI 0069, "AArch64 System register descriptions").
ghost use Rattle.std.specs.Prelude.{◌≡◌, Some, List, IfSome};
ghost use Rattle.gic_prio.specs.declared.candidate.Candidate.{Candidate};
ghost use Rattle.gic_prio.specs.Priority.{HasBinaryPoints, level_activated as with_level_activated};
ghost use Rattle.gic_prio.specs.Delivery.{first_of};
ghost use Rattle.gic_prio.specs.Signal.{intid_read, acknowledged as acknowledged_among, highest_pending as highest_of_group, ended, dir_deactivates as ends_active_state};

use crate::candidate::Candidate;
use crate::cpu::CpuRec;
use crate::levels::{LEVELS, least, with_level, without_level};
use crate::priority::{FIRST_SPECIAL, SPURIOUS, group_priority, signalled};
use floor_words::{Group, PRIORITY_STEP};

/// The candidate that a read of IAR of a group acknowledges, from the first of the candidates: that one if it
/// is of the group and signalled, or else none (IHI 0069, ICC_IAR0 and ICC_IAR1).
pub fn acknowledged(first: Option<Candidate>, group: Group, cpu: &CpuRec) -> Option<Candidate>
    requires { HasBinaryPoints cpu.now }
    ensures value { (candidates : List Candidate) → first ≡ first_of candidates → result ≡ acknowledged_among group cpu.now candidates }
    ensures first { IfSome result (λ found. first ≡ Some found) }
{
    let first = first?;
    let is_answered = first.group == group && signalled(first.prio, first.group, cpu);
    is_answered.then_some(first)
}

/// The INTID of a candidate that a read answers, or 1023 where there is none (IHI 0069, "Special INTIDs").
pub fn intid_or_spurious(found: Option<Candidate>) -> u32
    ensures { result ≡ intid_read found }
{
    match found {
        Some(found) => found.id,
        None => SPURIOUS,
    }
}

/// The INTID that a read of HPPIR of a group answers, from the first of the candidates: that one if it is
/// of the group, or else 1023 (IHI 0069, ICC_HPPIR0 and ICC_HPPIR1).
pub fn highest_pending(first: Option<Candidate>, group: Group) -> u32
    ensures { (candidates : List Candidate) → first ≡ first_of candidates → result ≡ intid_read (highest_of_group group candidates) }
{
    match first {
        Some(first) if first.group == group => first.id,
        _ => SPURIOUS,
    }
}

/// The record after an acknowledge of an interrupt of this priority (0 to 255) and group: the level of
/// its group priority is active in the group (IHI 0069, ICC_AP0R0 and ICC_AP1R0).
pub fn level_activated(cpu: &CpuRec, prio: u8, group: Group) -> CpuRec
    requires { HasBinaryPoints cpu.now }
    ensures value { result ≡ with_level_activated prio group cpu.now }
    ensures points { HasBinaryPoints result }
{
    let level = u32::from(group_priority(prio, group, cpu) / PRIORITY_STEP);
    match group {
        Group::G0 => CpuRec {
            ap0: with_level(level, cpu.ap0),
            ..*cpu
        },
        Group::G1 => CpuRec {
            ap1: with_level(level, cpu.ap1),
            ..*cpu
        },
    }
}

/// The record after a write of EOIR of a group with this INTID: the least active level, which has to be
/// the group's, is no longer active (IHI 0069, "Priority drop"). None where the write is ignored: for an
/// INTID from 1020 to 1023, where no level is active, and where the least is the other group's alone.
pub fn priority_dropped(cpu: &CpuRec, group: Group, id: u32) -> Option<CpuRec>
    ensures value { result ≡ ended group id cpu.now }
    ensures points { HasBinaryPoints cpu.now → IfSome result HasBinaryPoints }
{
    if (FIRST_SPECIAL..=SPURIOUS).contains(&id) {
        return None;
    }
    let running = least(cpu.ap0).min(least(cpu.ap1));
    let own = match group {
        Group::G0 => least(cpu.ap0),
        Group::G1 => least(cpu.ap1),
    };
    if running == LEVELS || running < own {
        return None;
    }
    Some(match group {
        Group::G0 => CpuRec {
            ap0: without_level(own, cpu.ap0),
            ..*cpu
        },
        Group::G1 => CpuRec {
            ap1: without_level(own, cpu.ap1),
            ..*cpu
        },
    })
}

/// Whether a write of DIR with this INTID deactivates the interrupt of that number where it is active by
/// this vCPU: where EOImode is 1, and not for an INTID from 1020 to 1023 (IHI 0069, ICC_DIR).
pub fn dir_deactivates(cpu: &CpuRec, id: u32) -> bool
    ensures { result ≡ ends_active_state id cpu.now }
{
    cpu.eoimode && !(FIRST_SPECIAL..=SPURIOUS).contains(&id)
}
