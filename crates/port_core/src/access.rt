//! A vCPU's access of its CPU interface, on what the vCPU has for itself.
ghost use Rattle.std.specs.Prelude.{◌≡◌, ◌<◌, List, [], ◌∷◌, ◌++◌, filter_map, Some, None};
ghost use Rattle.core_words.specs.Registers.{Candidate as Seen, HasBinaryPoints, first_of, taken_by, deactivated_by, cpu_after, candidate_of, candidates_at};
ghost use Rattle.port_core.specs.After.{shown, interface_of, id_of, accessed};

use crate::at_list::{AtIrq, Change, Which};
use crate::local::{Local, Phase};
use core_words::{
    Candidate, CpuRec, Group, IccReg, acknowledged, cpu_written, earlier, intid_deactivated,
    level_activated, listens,
};

/// The interrupt as a candidate for delivery: pending there, not active, and of a group that the vCPU listens to.
fn candidate(entry: &AtIrq, cpu: &CpuRec) -> Option<Candidate>
    ensures { result ≡ candidate_of cpu.now (shown entry.now) }
{
    let is_candidate = entry.pending && !entry.active && listens(cpu, entry.group);
    is_candidate.then_some(Candidate {
        id: entry.key.intid(),
        prio: entry.entry_prio,
        group: entry.group,
    })
}

/// The INTID of a candidate, if there is one.
fn intid(found: Option<Candidate>) -> Option<u32>
    ensures { result ≡ id_of found }
{
    match found {
        Some(found) => Some(found.id),
        None => None,
    }
}

/// The first of some candidates and of an interrupt, if it is one too.
fn first_with(first: Option<Candidate>, entry: &AtIrq, cpu: &CpuRec) -> Option<Candidate>
    ensures { (seen : List Seen) → first ≡ first_of seen → result ≡ first_of (seen ++ filter_map (candidate_of cpu.now) (shown entry.now ∷ [])) }
{
    match candidate(entry, cpu) {
        Some(next) => Some(earlier(first, next)),
        None => first,
    }
}

impl Local {
    /// The first of all candidates at the interface.
    fn first(&self) -> Option<Candidate>
        ensures { result ≡ first_of (candidates_at (interface_of self.now)) }
    {
        let mut first = None;
        for entry in self.at.as_slice() {
            first = first_with(first, entry, &self.cpu);
        }
        first
    }

    /// The candidate that an access acknowledges.
    fn acknowledged_by(&self, reg: IccReg, write: Option<u64>) -> Option<Candidate>
        requires { HasBinaryPoints self.now.cpu }
        ensures { result ≡ taken_by reg write self.now.cpu (candidates_at (interface_of self.now)) }
    {
        match (reg, write) {
            (IccReg::Iar0, None) => acknowledged(self.first(), Group::G0, &self.cpu),
            (IccReg::Iar1, None) => acknowledged(self.first(), Group::G1, &self.cpu),
            _ => None,
        }
    }

    /// The record of the CPU interface after an access that acknowledges a candidate, or none.
    fn cpu_after(&self, reg: IccReg, write: Option<u64>, taken: Option<Candidate>) -> CpuRec
        requires points { HasBinaryPoints self.now.cpu }
        requires taken { taken ≡ taken_by reg write self.now.cpu (candidates_at (interface_of self.now)) }
        ensures { result ≡ cpu_after reg write self.now.cpu (candidates_at (interface_of self.now)) }
    {
        match (write, taken) {
            (Some(value), _) => cpu_written(&self.cpu, reg, value),
            (None, Some(found)) => level_activated(&self.cpu, found.prio, found.group),
            (None, None) => self.cpu,
        }
    }

    /// The INTID of the interrupt that an access deactivates.
    fn deactivated_by(&self, reg: IccReg, write: Option<u64>) -> Option<u32>
        ensures { result ≡ deactivated_by reg write self.now.cpu }
    {
        match write {
            Some(value) => intid_deactivated(&self.cpu, reg, value),
            None => None,
        }
    }

    /// Does an access of a register: a read, or a write of a value.
    pub(crate) fn access(&mut self, reg: IccReg, write: Option<u64>)
        requires { HasBinaryPoints self.old.cpu }
        ensures { self.new ≡ accessed reg write self.old }
    {
        let taken = self.acknowledged_by(reg, write);
        let ended = self.deactivated_by(reg, write);
        let cpu = self.cpu_after(reg, write, taken);
        self.at
            .change(Which::Id(intid(taken)), Change::Acknowledged);
        self.at.change(Which::Id(ended), Change::Deactivated);
        self.cpu = cpu;
        self.phase = Phase::Loaded;
    }
}
