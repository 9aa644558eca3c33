//! Accesses of CPU interface registers, for which only what stands at the interface counts.
ghost use Rattle.std.specs.Prelude.{◌≡◌, ◌<◌, List, IfOk, OnOk, OnErr, IsTrue, map};
ghost use Rattle.floor_histories.specs.Words.{has_interrupt};
ghost use Rattle.floor_histories.specs.Registers.{Candidate, taken_by, deactivated_by, answer_of, cpu_after, first_of, interface_answer, candidates_at, HasBinaryPoints, intid_read};
ghost use Rattle.floor_histories.specs.Histories.{with_cpu, interface_at, shown_at, standing_at};
ghost use Rattle.floor_histories.specs.GicHistory.Moves.{after_access};
ghost use Rattle.history_check.specs.Access.{accessed_one};
ghost use Rattle.history_check.specs.Ready.{IsReady};

use crate::shown::Shown;
use crate::standing::Standing;
use crate::state::State;
use floor_histories::{
    Candidate, CpuRec, Group, IccReg, ListOf, acknowledged, cpu_written, earlier, highest_pending,
    intid_deactivated, intid_or_spurious, level_activated, read_plain,
};
use std::alloc::{AllocError, Global};

/// The candidate that an access acknowledges, from the first of the candidates.
fn taken(
    first: Option<Candidate>,
    reg: IccReg,
    write: Option<u64>,
    cpu: &CpuRec,
) -> Option<Candidate>
    requires { HasBinaryPoints cpu.now }
    ensures { (candidates : List Candidate) → first ≡ first_of candidates → result ≡ taken_by reg write cpu.now candidates }
{
    match (reg, write) {
        (IccReg::Iar0, None) => acknowledged(first, Group::G0, cpu),
        (IccReg::Iar1, None) => acknowledged(first, Group::G1, cpu),
        _ => None,
    }
}

/// The INTID of a candidate, or 1023 for none.
fn intid_of(found: Option<Candidate>) -> u64
    ensures { result ≡ intid_read found }
{
    u64::from(intid_or_spurious(found))
}

/// What an access reads, from the first of the candidates.
fn answer(first: Option<Candidate>, reg: IccReg, write: Option<u64>, cpu: &CpuRec) -> Option<u64>
    requires { HasBinaryPoints cpu.now }
    ensures { (candidates : List Candidate) → first ≡ first_of candidates → result ≡ answer_of reg write cpu.now candidates }
{
    if write.is_some() {
        return None;
    }
    match reg {
        IccReg::Iar0 => Some(intid_of(acknowledged(first, Group::G0, cpu))),
        IccReg::Iar1 => Some(intid_of(acknowledged(first, Group::G1, cpu))),
        IccReg::Hppir0 => Some(u64::from(highest_pending(first, Group::G0))),
        IccReg::Hppir1 => Some(u64::from(highest_pending(first, Group::G1))),
        _ => read_plain(cpu, reg),
    }
}

/// The INTID of the interrupt that an access deactivates, if that one is active by the vCPU.
pub(crate) fn ended(reg: IccReg, write: Option<u64>, cpu: &CpuRec) -> Option<u32>
    ensures { result ≡ deactivated_by reg write cpu.now }
{
    match write {
        Some(value) => intid_deactivated(cpu, reg, value),
        None => None,
    }
}

/// The record of the interface after an access that acknowledges this candidate, or none.
fn cpu_then(taken: Option<Candidate>, reg: IccReg, write: Option<u64>, cpu: &CpuRec) -> CpuRec
    requires { HasBinaryPoints cpu.now }
    ensures value { (candidates : List Candidate) → taken ≡ taken_by reg write cpu.now candidates → result ≡ cpu_after reg write cpu.now candidates }
    ensures points { HasBinaryPoints result }
{
    match (write, taken) {
        (Some(value), _) => cpu_written(cpu, reg, value),
        (None, Some(found)) => level_activated(cpu, found.prio, found.group),
        (None, None) => *cpu,
    }
}

impl State {
    /// What stands at an interface, as accesses see it.
    fn shown(&self, one: &Standing) -> Shown
        requires ready { IsReady self.now }
        requires there { IsTrue (has_interrupt self.now.guest.shape one.now.key) }
        ensures { result ≡ shown_at self.now one.now }
    {
        let irq = self.irq(one.key);
        Shown {
            key: one.key,
            prio: irq.prio,
            group: irq.group,
            entry: one.entry,
        }
    }

    /// What an access leaves at a vCPU's interface that acknowledges a candidate and deactivates the interrupt with an INTID,
    /// or none.
    fn accessed(
        &self,
        alloc: Global,
        vcpu: u32,
        taken: Option<Candidate>,
        ended: Option<u32>,
    ) -> Result<ListOf<Standing>, AllocError>
        requires ready { IsReady self.now }
        requires there { vcpu < self.now.guest.shape.vcpus }
        ensures { IfOk result (λ all. all ≡ map (accessed_one taken ended) (map (shown_at self.now) (standing_at self.now vcpu))) }
    {
        let mut all = ListOf::new(alloc);
        for one in self.standing(vcpu) {
            all.push(self.shown(one).accessed(taken, ended))?;
        }
        Ok(all)
    }

    /// Puts a record in the place of that of a vCPU's CPU interface.
    #[tactic(auto, using(crate::proofs::ReadyLemmas::ready_cpu))]
    pub(crate) fn set_cpu(&mut self, vcpu: u32, cpu: CpuRec)
        requires ready { IsReady self.old }
        requires there { vcpu < self.old.guest.shape.vcpus }
        requires points { HasBinaryPoints cpu }
        ensures value { self.new ≡ record self.old { guest = with_cpu self.old.guest vcpu cpu } }
        ensures ready { IsReady self.new }
    {
        self.guest.cpus.set(vcpu as usize, cpu);
    }

    /// The first of the interrupts at a vCPU's interface that can be delivered to it, if there is one.
    pub fn first_at(&self, vcpu: u32) -> Option<Candidate>
        requires ready { IsReady self.now }
        requires there { vcpu < self.now.guest.shape.vcpus }
        ensures { result ≡ first_of (candidates_at (interface_at self.now vcpu)) }
    {
        let cpu = self.cpu(vcpu);
        let mut first = None;
        for one in self.standing(vcpu) {
            if let Some(next) = self.shown(one).candidate(&cpu) {
                first = Some(earlier(first, next));
            }
        }
        first
    }

    /// What an access of a register of a vCPU's CPU interface reads, if it reads.
    pub fn read(&self, reg: IccReg, write: Option<u64>, vcpu: u32) -> Option<u64>
        requires ready { IsReady self.now }
        requires there { vcpu < self.now.guest.shape.vcpus }
        ensures { result ≡ interface_answer reg write (interface_at self.now vcpu) }
    {
        answer(self.first_at(vcpu), reg, write, &self.cpu(vcpu))
    }

    /// A vCPU reads a register of its CPU interface, or writes a value to it: of the interrupts, only those that stand at the
    /// interface count. Answers what it reads. `AllocError` where memory is refused: then nothing happened.
    pub fn access(
        &mut self,
        alloc: Global,
        reg: IccReg,
        write: Option<u64>,
        vcpu: u32,
    ) -> Result<Option<u64>, AllocError>
        requires ready { IsReady self.old }
        requires there { vcpu < self.old.guest.shape.vcpus }
        ensures answer { IfOk result (λ read. read ≡ interface_answer reg write (interface_at self.old vcpu)) }
        ensures after { OnOk result (self.new ≡ after_access vcpu reg write self.old) }
        ensures err { OnErr result (self.new ≡ self.old) }
        ensures ready { IsReady self.new }
    {
        let cpu = self.cpu(vcpu);
        let first = self.first_at(vcpu);
        let found = taken(first, reg, write, &cpu);
        let standing = self.accessed(alloc, vcpu, found, ended(reg, write, &cpu))?;
        let read = answer(first, reg, write, &cpu);
        self.set_cpu(vcpu, cpu_then(found, reg, write, &cpu));
        self.set_standing(vcpu, standing);
        Ok(read)
    }
}
