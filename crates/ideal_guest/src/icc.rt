//! What a vCPU's accesses of its CPU interface do.
ghost use Rattle.std.specs.Prelude.{◌≡◌, ◌<◌, Some, None};
ghost use Rattle.floor_calls.specs.Words.{acknowledged as acknowledged_irq, deactivated as deactivated_irq, interrupt_count};
ghost use Rattle.floor_calls.specs.Registers.{first_of, acknowledged as acknowledged_among, intid_read, activated_by};
ghost use Rattle.ideal_guest.specs.Ideal.{cpu_at, with_cpu, changed_at, candidate_at, candidates, after_acknowledge, after_access, access_answer};
ghost use Rattle.ideal_guest.specs.Sound.{IsSound};

use crate::guest::IdealGuest;
use floor_calls::{
    Candidate, Group, IccReg, SPURIOUS, acknowledged, cpu_written, deliverable, earlier,
    highest_pending, intid_deactivated, key_at, key_of, level_activated, read_plain,
};

impl IdealGuest {
    /// The interrupt at a place in key order, if it is deliverable to the vCPU.
    fn candidate(&self, vcpu: u32, place: usize) -> Option<Candidate>
        requires sound { IsSound self.now }
        requires there { vcpu < self.now.shape.vcpus }
        requires within { place < interrupt_count self.now.shape }
        ensures { result ≡ candidate_at self.now vcpu place }
    {
        let key = key_at(place, &self.shape);
        let irq = self.irq(key);
        let cpu = self.cpu(vcpu);
        deliverable(key, &irq, vcpu, &cpu).then_some(Candidate {
            id: key.intid(),
            prio: irq.prio,
            group: irq.group,
        })
    }

    /// The first of all interrupts that are deliverable to a vCPU: the one with the highest priority, and of these the lowest INTID. It looks at those
    /// that are pending alone. vCPUs are numbered from 0, below the shape's.
    #[tactic(auto, using(crate::proofs::PendingLemmas::pending_within))]
    pub fn first(&self, vcpu: u32) -> Option<Candidate>
        requires sound { IsSound self.now }
        requires there { vcpu < self.now.shape.vcpus }
        ensures { result ≡ first_of (candidates self.now vcpu) }
    {
        let mut first = None;
        for index in 0..self.irqs.pending_count() {
            if let Some(next) = self.candidate(vcpu, self.irqs.pending_at(index)) {
                first = Some(earlier(first, next));
            }
        }
        first
    }

    /// The interrupt that a read of IAR of a group by a vCPU would acknowledge: none exactly where the read would answer 1023. vCPUs are numbered from 0,
    /// below the shape's.
    pub fn answered(&self, group: Group, vcpu: u32) -> Option<Candidate>
        requires sound { IsSound self.now }
        requires there { vcpu < self.now.shape.vcpus }
        ensures { result ≡ acknowledged_among group (cpu_at self.now vcpu) (candidates self.now vcpu) }
    {
        acknowledged(self.first(vcpu), group, &self.cpu(vcpu))
    }

    /// The record of the interrupt with an INTID after this vCPU acknowledged it, where it is there.
    #[tactic(auto, using(crate::proofs::SoundLemmas::ideal_acknowledged))]
    fn take(&mut self, id: u32, vcpu: u32)
        requires sound { IsSound self.old }
        requires there { vcpu < self.old.shape.vcpus }
        ensures after { self.new ≡ changed_at id vcpu (λ key irq. acknowledged_irq key vcpu irq) self.old }
        ensures sound { IsSound self.new }
    {
        if let Some(key) = key_of(id, vcpu, &self.shape) {
            let irq = self.irq(key);
            self.set_irq(key, irq.acknowledged(key, vcpu));
        }
    }

    /// Acknowledges a candidate, or none, and answers its INTID or 1023.
    fn acknowledge(&mut self, found: Option<Candidate>, vcpu: u32) -> u64
        requires sound { IsSound self.old }
        requires there { vcpu < self.old.shape.vcpus }
        ensures value { result ≡ intid_read found }
        ensures after { self.new ≡ with_cpu (after_acknowledge found self.old vcpu) vcpu (activated_by found (cpu_at self.old vcpu)) }
        ensures sound { IsSound self.new }
    {
        let cpu = self.cpu(vcpu);
        let Some(found) = found else {
            self.set_cpu(vcpu, cpu);
            return u64::from(SPURIOUS);
        };
        self.take(found.id, vcpu);
        self.set_cpu(vcpu, level_activated(&cpu, found.prio, found.group));
        u64::from(found.id)
    }

    /// Deactivates the interrupt of an INTID where it is there and active by this vCPU.
    #[tactic(auto, using(crate::proofs::SoundLemmas::ideal_deactivated))]
    fn deactivate(&mut self, id: u32, vcpu: u32)
        requires { IsSound self.old }
        ensures after { self.new ≡ changed_at id vcpu (λ key irq. deactivated_irq vcpu irq) self.old }
        ensures sound { IsSound self.new }
    {
        if let Some(key) = key_of(id, vcpu, &self.shape) {
            let irq = self.irq(key);
            self.set_irq(key, irq.deactivated(vcpu));
        }
    }

    /// Reads a CPU interface register.
    fn read(&mut self, reg: IccReg, vcpu: u32) -> Option<u64>
        requires sound { IsSound self.old }
        requires there { vcpu < self.old.shape.vcpus }
        ensures answer { result ≡ access_answer reg None self.old vcpu }
        ensures after { self.new ≡ after_access reg None self.old vcpu }
        ensures sound { IsSound self.new }
    {
        match reg {
            IccReg::Iar0 => {
                let found = self.answered(Group::G0, vcpu);
                Some(self.acknowledge(found, vcpu))
            }
            IccReg::Iar1 => {
                let found = self.answered(Group::G1, vcpu);
                Some(self.acknowledge(found, vcpu))
            }
            IccReg::Hppir0 => Some(u64::from(highest_pending(self.first(vcpu), Group::G0))),
            IccReg::Hppir1 => Some(u64::from(highest_pending(self.first(vcpu), Group::G1))),
            _ => read_plain(&self.cpu(vcpu), reg),
        }
    }

    /// Writes a CPU interface register.
    fn write(&mut self, reg: IccReg, value: u64, vcpu: u32)
        requires sound { IsSound self.old }
        requires there { vcpu < self.old.shape.vcpus }
        ensures after { self.new ≡ after_access reg (Some value) self.old vcpu }
        ensures sound { IsSound self.new }
    {
        let cpu = self.cpu(vcpu);
        if let Some(id) = intid_deactivated(&cpu, reg, value) {
            self.deactivate(id, vcpu);
        }
        self.set_cpu(vcpu, cpu_written(&cpu, reg, value));
    }

    /// Reads a register of a vCPU's CPU interface, or writes the value to it; answers what is read.
    #[tactic(auto, using(crate::proofs::KeyLemmas::shape_access, crate::proofs::KeyLemmas::tables_access))]
    pub(crate) fn access(&mut self, reg: IccReg, write: Option<u64>, vcpu: u32) -> Option<u64>
        requires sound { IsSound self.old }
        requires there { vcpu < self.old.shape.vcpus }
        ensures answer { result ≡ access_answer reg write self.old vcpu }
        ensures after { self.new ≡ after_access reg write self.old vcpu }
        ensures sound { IsSound self.new }
        ensures shape { self.new.shape ≡ self.old.shape }
        ensures tables { self.new.tables ≡ self.old.tables }
    {
        match write {
            None => self.read(reg, vcpu),
            Some(value) => {
                self.write(reg, value, vcpu);
                None
            }
        }
    }
}
