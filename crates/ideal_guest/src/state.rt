//! The records and the words of one guest.
ghost use Rattle.std.specs.Prelude.{◌≡◌, ◌<◌, IsTrue, true};
ghost use Rattle.floor_calls.specs.Words.{has_interrupt};
ghost use Rattle.floor_calls.specs.Registers.{HasBinaryPoints};
ghost use Rattle.floor_calls.specs.Calls.{with_irq_in, has_plain, IsOffset, is_stored};
ghost use Rattle.ideal_guest.specs.Ideal.{irq_at, cpu_at, with_cpu, word_at, with_word, with_queue};
ghost use Rattle.ideal_guest.specs.Sound.{IsIdealRecord, IsSound};

use crate::guest::IdealGuest;
use floor_calls::{CpuRec, Irq, Key, PlainWord, place_of, place_of_plain};

impl IdealGuest {
    /// The record of an interrupt that the guest has: its enable, group, priority and causes, which vCPU has it
    /// active, and whom it is for.
    pub fn irq(&self, key: Key) -> Irq
        requires sound { IsSound self.now }
        requires there { IsTrue (has_interrupt self.now.shape key) }
        ensures { result ≡ irq_at self.now key }
    {
        self.irqs.as_slice()[place_of(key, &self.shape)]
    }

    /// Puts a record in the place of an interrupt's.
    #[tactic(auto, using(crate::proofs::SoundLemmas::sound_put))]
    pub(crate) fn set_irq(&mut self, key: Key, irq: Irq)
        requires sound { IsSound self.old }
        requires there { IsTrue (has_interrupt self.old.shape key) }
        requires valid { IsIdealRecord self.old.shape key irq }
        ensures value { self.new ≡ record self.old { irqs = with_irq_in self.old.shape key irq self.old.irqs } }
        ensures sound { IsSound self.new }
    {
        let place = place_of(key, &self.shape);
        self.irqs.set(place, irq);
    }

    /// The record of a vCPU's CPU interface: its masks, its binary points and active priorities, and EnableLPIs of its
    /// redistributor. vCPUs are numbered from 0, below the shape's.
    pub fn cpu(&self, vcpu: u32) -> CpuRec
        requires sound { IsSound self.now }
        requires there { vcpu < self.now.shape.vcpus }
        ensures { result ≡ cpu_at self.now vcpu }
    {
        self.cpus.as_slice()[vcpu as usize]
    }

    /// Puts a record in the place of that of a vCPU's CPU interface.
    #[tactic(auto, using(crate::proofs::SoundLemmas::sound_with_points))]
    pub(crate) fn set_cpu(&mut self, vcpu: u32, cpu: CpuRec)
        requires sound { IsSound self.old }
        requires there { vcpu < self.old.shape.vcpus }
        requires points { HasBinaryPoints cpu }
        ensures value { self.new ≡ with_cpu self.old vcpu cpu }
        ensures sound { IsSound self.new }
    {
        self.cpus.set(vcpu as usize, cpu);
    }

    /// A plain word that the guest has, as it is stored: a doubleword of its memory, the value of a register that is only
    /// stored, or the number of the fault at which the queue of the ITS stalled.
    pub fn word(&self, word: PlainWord) -> u64
        requires sound { IsSound self.now }
        requires there { IsTrue (has_plain self.now.shape word) }
        ensures { result ≡ word_at self.now word }
    {
        self.words.as_slice()[place_of_plain(word, &self.shape)]
    }

    /// Stores a value in a plain word. The number of a fault is stored with the stall alone.
    #[tactic(auto, using(crate::proofs::SoundLemmas::sound_with_word))]
    pub(crate) fn set_word(&mut self, word: PlainWord, value: u64)
        requires sound { IsSound self.old }
        requires there { IsTrue (has_plain self.old.shape word) }
        requires stored { IsTrue (is_stored word) }
        ensures value { self.new ≡ with_word self.old word value }
        ensures sound { IsSound self.new }
    {
        let place = place_of_plain(word, &self.shape);
        self.words.set(place, value);
    }

    /// The queue of the ITS is at an offset, stalled or not.
    #[tactic(auto, using(crate::proofs::SoundLemmas::sound_with_queue))]
    pub(crate) fn set_queue(&mut self, offset: u32, is_stalled: bool)
        requires sound { IsSound self.old }
        requires offset { IsOffset offset }
        ensures value { self.new ≡ with_queue self.old offset is_stalled }
        ensures sound { IsSound self.new }
    {
        self.offset = offset;
        self.is_stalled = is_stalled;
    }

    /// The queue stalls at a command, and its fault is stored.
    #[tactic(auto, using(crate::proofs::SoundLemmas::sound_stalled))]
    pub(crate) fn stall(&mut self, offset: u32, fault: u8)
        requires sound { IsSound self.old }
        requires offset { IsOffset offset }
        ensures value { self.new ≡ with_queue (with_word self.old PlainWord.Fault fault) offset true }
        ensures sound { IsSound self.new }
    {
        let place = place_of_plain(PlainWord::Fault, &self.shape);
        self.words.set(place, u64::from(fault));
        self.offset = offset;
        self.is_stalled = true;
    }
}
