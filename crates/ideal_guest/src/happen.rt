//! What happens to the interrupts and the redistributors of one guest.
ghost use Rattle.std.specs.Prelude.{◌≡◌, if◌then◌else◌};
ghost use Rattle.floor_calls.specs.Calls.{HappensFreely};
ghost use Rattle.ideal_guest.specs.Ideal.{after_event};
ghost use Rattle.ideal_guest.specs.Sound.{IsSound};

use crate::guest::IdealGuest;
use floor_calls::{CpuRec, Enables, Event, Key, Touching};

impl IdealGuest {
    /// Makes an interrupt pending.
    #[tactic(auto, using(crate::proofs::SoundLemmas::ideal_raised))]
    pub(crate) fn raise(&mut self, key: Key)
        requires sound { IsSound self.old }
        requires valid { HappensFreely self.old.shape (Event.Raise key) }
        ensures after { self.new ≡ after_event self.old (Event.Raise key) }
        ensures sound { IsSound self.new }
        ensures shape { self.new.shape ≡ self.old.shape }
    {
        let irq = self.irq(key);
        self.set_irq(key, irq.raised());
    }

    /// The wire of an interrupt moves.
    #[tactic(auto, using(crate::proofs::SoundLemmas::ideal_wire_up, crate::proofs::SoundLemmas::ideal_wire_down))]
    pub(crate) fn wire(&mut self, key: Key, up: bool)
        requires sound { IsSound self.old }
        requires valid { HappensFreely self.old.shape (Event.Up key) }
        ensures after { self.new ≡ after_event self.old (if up then Event.Up key else Event.Down key) }
        ensures sound { IsSound self.new }
        ensures shape { self.new.shape ≡ self.old.shape }
    {
        let irq = self.irq(key);
        self.set_irq(key, if up { irq.wire_up() } else { irq.wire_down() });
    }

    /// The record of an interrupt is read or changed.
    #[tactic(auto, using(crate::proofs::SoundLemmas::ideal_touched))]
    pub(crate) fn touch(&mut self, key: Key, touching: Touching)
        requires sound { IsSound self.old }
        requires valid { HappensFreely self.old.shape (Event.Touch key touching) }
        ensures after { self.new ≡ after_event self.old (Event.Touch key touching) }
        ensures sound { IsSound self.new }
        ensures shape { self.new.shape ≡ self.old.shape }
    {
        let irq = self.irq(key);
        let shape = self.shape;
        self.set_irq(key, touching.applied(key, &irq, &shape));
    }

    /// EnableLPIs of a vCPU's redistributor becomes 1.
    pub(crate) fn enable_lpis(&mut self, vcpu: u32)
        requires sound { IsSound self.old }
        requires valid { HappensFreely self.old.shape (Event.Enable vcpu) }
        ensures after { self.new ≡ after_event self.old (Event.Enable vcpu) }
        ensures sound { IsSound self.new }
        ensures shape { self.new.shape ≡ self.old.shape }
    {
        let cpu = self.cpu(vcpu);
        self.set_cpu(vcpu, CpuRec { lpis: true, ..cpu });
    }

    /// The group enables of GICD_CTLR are stored.
    pub(crate) fn set_enables(&mut self, enables: Enables)
        requires sound { IsSound self.old }
        ensures after { self.new ≡ after_event self.old (Event.CtlrBegin enables) }
        ensures sound { IsSound self.new }
        ensures shape { self.new.shape ≡ self.old.shape }
    {
        self.enables = enables;
    }
}
