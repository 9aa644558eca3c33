//! One access of a CPU interface register by a guest.
ghost use Rattle.std.specs.Prelude.{◌≡◌, ◌≤◌, true, Option, None, Some, List, IsTrue};
ghost use Rattle.gic_ich.specs.Words.{is_readable, has_bit, HeldIrq};
ghost use Rattle.gic_ich.specs.GicPrio.Signal.{acknowledged as acknowledged_of, highest_pending as highest_of_group, intid_read};
ghost use Rattle.gic_ich.specs.GicPrio.Priority.{HasBinaryPoints};
ghost use Rattle.gic_ich.specs.GicPrio.Interface.{InterfaceState, IsInterface, interface_after};
ghost use Rattle.gic_ich.specs.GicPrio.Access.{answer_of};
ghost use Rattle.gic_ich.specs.GicPrio.Delivery.{first_of};
ghost use Rattle.gic_ich.specs.Hcr.{hcr_en};
ghost use Rattle.gic_ich.specs.Place.{StandFor};
ghost use Rattle.gic_icv.specs.Trap.{trap_cause as cause_of};
ghost use Rattle.gic_icv.specs.Registers.{HasDirection, is_counted as is_counted_id, cpu_in, candidates_of, with_cpu, after_acknowledge, after_iar, after_deactivation_of, registers_after, outcome_of, after_access};
ghost use Rattle.gic_icv.specs.Agree.{Agrees, Follows};

use crate::entries::{
    acknowledged, deactivated, first_pending, place_of_active, place_of_candidate,
};
use crate::trap::{TrapCause, trap_cause};
use gic_ich::{
    Candidate, CpuRec, FIRST_ESPI, FIRST_SPECIAL, Group, HCR_EOICOUNT, IccReg, IchRegs, MAX_ESPIS,
    MAX_LIST_REGISTERS, SPURIOUS, acknowledged as acknowledged_first, cpu_of, cpu_written,
    highest_pending, intid_deactivated, level_activated, read_plain, vmcr_with,
};

/// What an access answers.
#[derive(Clone, Copy, Debug, PartialEq, Eq, Hash)]
pub enum Outcome {
    /// A read read this.
    Value(u64),
    /// A write was done.
    Done,
    /// The access is for the hypervisor to carry out, and nothing changed.
    Trap(TrapCause),
}

fn set_cpu(regs: &mut IchRegs, cpu: &CpuRec)
    requires { HasBinaryPoints cpu.now }
    ensures { regs.new ≡ with_cpu cpu.now regs.old }
{
    regs.vmcr = vmcr_with(regs.vmcr, cpu);
    regs.ap0r = cpu.ap0;
    regs.ap1r = cpu.ap1;
}

fn first(regs: &IchRegs) -> Option<Candidate>
    requires { regs.now.n ≤ MAX_LIST_REGISTERS }
    ensures { result ≡ first_of (candidates_of regs.now) }
{
    first_pending(&cpu_of(regs, false), regs.listed())
}

/// The candidate that a read of IAR of a group acknowledges.
fn taken(regs: &IchRegs, group: Group) -> Option<Candidate>
    requires { regs.now.n ≤ MAX_LIST_REGISTERS }
    ensures { result ≡ acknowledged_of group (cpu_in regs.now) (candidates_of regs.now) }
{
    acknowledged_first(first(regs), group, &cpu_of(regs, false))
}

/// The first list register that has a candidate is acknowledged.
fn acknowledge(regs: &mut IchRegs, found: &Candidate)
    requires { regs.old.n ≤ MAX_LIST_REGISTERS }
    ensures { regs.new ≡ after_acknowledge (Some found.now) regs.old }
{
    if let Some(place) = place_of_candidate(found, regs.listed()) {
        regs.lr[place] = acknowledged(regs.lr[place]);
    }
}

/// A read of IAR of a group.
fn read_iar(regs: &mut IchRegs, group: Group) -> u64
    requires { regs.old.n ≤ MAX_LIST_REGISTERS }
    ensures value { result ≡ intid_read (acknowledged_of group (cpu_in regs.old) (candidates_of regs.old)) }
    ensures registers { regs.new ≡ after_iar group regs.old }
{
    let Some(found) = taken(regs, group) else {
        return u64::from(SPURIOUS);
    };
    let cpu = level_activated(&cpu_of(regs, false), found.prio, found.group);
    acknowledge(regs, &found);
    set_cpu(regs, &cpu);
    u64::from(found.id)
}

/// A read of HPPIR of a group.
fn read_hppir(regs: &IchRegs, group: Group) -> u64
    requires { regs.now.n ≤ MAX_LIST_REGISTERS }
    ensures { result ≡ intid_read (highest_of_group group (candidates_of regs.now)) }
{
    u64::from(highest_pending(first(regs), group))
}

/// A read of a register.
#[tactic(auto, using(crate::proofs::RegisterLemmas::plain_answer, crate::proofs::RegisterLemmas::plain_kept))]
fn read_register(regs: &mut IchRegs, reg: IccReg) -> u64
    requires number { regs.old.n ≤ MAX_LIST_REGISTERS }
    requires readable { IsTrue (is_readable reg) }
    ensures value { answer_of reg None (cpu_in regs.old) (candidates_of regs.old) ≡ Some result }
    ensures registers { regs.new ≡ registers_after reg None regs.old }
{
    match reg {
        IccReg::Iar0 => read_iar(regs, Group::G0),
        IccReg::Iar1 => read_iar(regs, Group::G1),
        IccReg::Hppir0 => read_hppir(regs, Group::G0),
        IccReg::Hppir1 => read_hppir(regs, Group::G1),
        _ => read_plain(&cpu_of(regs, false), reg).unwrap_or(0),
    }
}

/// Whether an end of interrupt with an INTID is counted where no list register has it: below 1020, and for
/// extended SPIs.
fn is_counted(id: u32) -> bool
    ensures { result ≡ is_counted_id id }
{
    id < FIRST_SPECIAL || (FIRST_ESPI..FIRST_ESPI + MAX_ESPIS).contains(&id)
}

/// The active interrupt of an INTID is deactivated in the first list register that has it, or counted where
/// none has it.
fn deactivate(regs: &mut IchRegs, id: u32)
    requires { regs.old.n ≤ MAX_LIST_REGISTERS }
    ensures { regs.new ≡ after_deactivation_of id regs.old }
{
    match place_of_active(id, regs.listed()) {
        Some(place) => regs.lr[place] = deactivated(regs.lr[place]),
        None if is_counted(id) => regs.hcr = regs.hcr.wrapping_add(HCR_EOICOUNT),
        None => {}
    }
}

/// A write of a value to a register.
fn write_register(regs: &mut IchRegs, reg: IccReg, value: u64)
    requires { regs.old.n ≤ MAX_LIST_REGISTERS }
    ensures { regs.new ≡ registers_after reg (Some value) regs.old }
{
    let cpu = cpu_of(regs, false);
    if let Some(id) = intid_deactivated(&cpu, reg, value) {
        deactivate(regs, id);
    }
    set_cpu(regs, &cpu_written(&cpu, reg, value));
}

/// Carries out one access of a CPU interface register: a read, or a write of the value. The register has
/// that direction, ICH_HCR.En is 1, and the PE has 1 to 16 list registers. `Trap` comes exactly where ICH_HCR
/// asks for it, and then nothing changes; otherwise `Value` comes exactly for a read and `Done` for a write.
pub fn access(regs: &mut IchRegs, reg: IccReg, write: Option<u64>) -> Outcome
    requires number { 1 ≤ regs.old.n × regs.old.n ≤ MAX_LIST_REGISTERS }
    requires direction { HasDirection reg write }
    requires enabled { has_bit regs.old.hcr hcr_en ≡ true }
    ensures outcome { result ≡ outcome_of reg write regs.old }
    ensures registers { regs.new ≡ after_access reg write regs.old }
    ensures follows { (interface : InterfaceState) → IsInterface interface → Agrees regs.old interface → cause_of regs.old.hcr reg ≡ None → Follows reg write interface result regs.new }
    // Each interrupt stays at the place of its list register.
    ensures places { (interface : InterfaceState) (held : List (Option HeldIrq)) → IsInterface interface → StandFor regs.old held interface → cause_of regs.old.hcr reg ≡ None → StandFor regs.new held (interface_after reg write interface) }
{
    if let Some(cause) = trap_cause(regs.hcr, reg) {
        return Outcome::Trap(cause);
    }
    match write {
        None => Outcome::Value(read_register(regs, reg)),
        Some(value) => {
            write_register(regs, reg, value);
            Outcome::Done
        }
    }
}
