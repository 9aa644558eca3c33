//! The resets of a machine and of a vCPU.
ghost use Rattle.std.specs.Prelude.{◌≡◌, ◌<◌, false, length, replicate};
ghost use Rattle.ideal_guest.specs.Words.{IsShape, interrupt_count as count_of};
ghost use Rattle.ideal_guest.specs.Calls.{opening_irqs};
ghost use Rattle.ideal_guest.specs.Sound.{IsSound};
ghost use Rattle.gic_vm.specs.Calls.{done_by, told, left_by};
ghost use Rattle.gic_vm.specs.Reset.{reset_of, reset_machine, with_cpu_reset, reset_cpu_of};

use crate::done::{Done, Refused};
use crate::lines::look;
use crate::machine::Machine;
use guest_memory::Bases;
use ideal_guest::{
    CpuRec, GuestShape, IdealGuest, IrqRecords, ListOf, enables_in, interrupt_count, key_at,
    opening_cpu, opening_enables, opening_irq,
};

/// Puts a value in each place of a list.
fn fill<T: Copy + Drop>(list: &mut ListOf<T>, value: T)
    ensures { list.new ≡ replicate (length list.old) value }
{
    for place in 0..list.len() {
        list.set(place, value);
    }
}

/// Puts the record with which each interrupt opens in the place of its record.
fn reset_irqs(irqs: &mut IrqRecords, shape: &GuestShape)
    requires shape { IsShape shape.now }
    requires each { length irqs.old ≡ count_of shape.now }
    ensures { irqs.new ≡ opening_irqs false shape.now }
{
    for place in 0..interrupt_count(shape) {
        irqs.set(place, opening_irq(false, key_at(place, shape)));
    }
}

/// The guest is as it opened.
#[tactic(auto, using(crate::proofs::ResetLemmas::sound_reset))]
fn reopen(guest: &mut IdealGuest)
    requires sound { IsSound guest.old }
    ensures value { guest.new ≡ reset_of guest.old }
    ensures sound { IsSound guest.new }
    ensures shape { guest.new.shape ≡ guest.old.shape }
{
    let shape = guest.shape;
    reset_irqs(&mut guest.irqs, &shape);
    fill(&mut guest.cpus, opening_cpu(false));
    fill(&mut guest.words, 0);
    guest.enables = enables_in(opening_enables(false));
    guest.offset = 0;
    guest.is_stalled = false;
    guest.tables.clear();
}

/// The CPU interface of a vCPU is as the guest opened; EnableLPIs stays.
#[tactic(auto, using(crate::proofs::ResetLemmas::sound_cpu))]
fn reset_cpu(guest: &mut IdealGuest, vcpu: u32)
    requires sound { IsSound guest.old }
    requires there { vcpu < guest.old.shape.vcpus }
    ensures value { guest.new ≡ with_cpu_reset vcpu guest.old }
    ensures sound { IsSound guest.new }
    ensures shape { guest.new.shape ≡ guest.old.shape }
{
    let cpu = CpuRec {
        lpis: guest.cpu(vcpu).lpis,
        ..opening_cpu(false)
    };
    guest.cpus.set(vcpu as usize, cpu);
}

impl Machine {
    /// Resets the machine: it is as it opened, with every wire down. Who has a wire up gives its level again. The memory that the GIC reads is 0 too.
    #[tactic(auto, using(crate::proofs::KeptLemmas::kept_after))]
    pub fn reset(&mut self) -> Done
        ensures done { result ≡ done_by 0 self.old.guest (reset_of self.old.guest) }
        ensures machine { self.new ≡ reset_machine self.old }
    {
        reopen(&mut self.guest);
        self.bases = Bases::new();
        Done {
            value: 0,
            changed: look(&self.guest, &mut self.lines),
        }
    }

    /// Resets a vCPU: its CPU interface is as the machine opened, with no active priority. Its interrupts stay pending and active, and its redistributor
    /// stays as it is, EnableLPIs too.
    ///
    /// `Refused::NotThere` exactly where the machine has no such vCPU.
    #[tactic(auto, using(crate::proofs::KeptLemmas::kept_after))]
    pub fn reset_vcpu(&mut self, vcpu: u32) -> Result<Done, Refused>
        ensures answer { result ≡ told (reset_cpu_of vcpu self.old.guest) self.old.guest }
        ensures machine { self.new ≡ left_by (reset_cpu_of vcpu self.old.guest) self.old }
    {
        if vcpu >= self.guest.shape.vcpus {
            return Err(Refused::NotThere);
        }
        reset_cpu(&mut self.guest, vcpu);
        Ok(Done {
            value: 0,
            changed: look(&self.guest, &mut self.lines),
        })
    }
}
