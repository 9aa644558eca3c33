//! What the other events do, and all of them.
ghost use Rattle.std.specs.Prelude.{◌≡◌, ◌<◌, IsTrue, if◌then◌else◌};
ghost use Rattle.floor_histories.specs.Words.{has_interrupt, raised, wire_up, wire_down};
ghost use Rattle.floor_histories.specs.Calls.{has_plain, Event, CanTouch, touched, HappensFreely};
ghost use Rattle.floor_histories.specs.Histories.{changed_irq, with_word, with_queue, after_event};
ghost use Rattle.history_check.specs.Ready.{IsReady};

use crate::state::State;
use floor_histories::{CpuRec, Enables, Key, PlainWord, QueueChange, Touching, place_of_plain};

impl State {
    /// Stores a value in a plain word.
    pub(crate) fn set_word(&mut self, word: PlainWord, value: u64)
        requires ready { IsReady self.old }
        requires there { IsTrue (has_plain self.old.guest.shape word) }
        ensures value { self.new ≡ record self.old { guest = with_word self.old.guest word value } }
        ensures ready { IsReady self.new }
    {
        let place = place_of_plain(word, &self.guest.shape);
        self.guest.words.set(place, value);
    }

    /// Stores the group enables of GICD_CTLR.
    pub(crate) fn set_enables(&mut self, enables: Enables)
        requires ready { IsReady self.old }
        ensures value { self.new ≡ record self.old { guest = record self.old.guest { enables = enables } } }
        ensures ready { IsReady self.new }
    {
        self.guest.enables = enables;
    }

    /// The queue of the ITS is at an offset, stalled or not.
    pub(crate) fn set_queue(&mut self, offset: u32, is_stalled: bool)
        requires ready { IsReady self.old }
        ensures value { self.new ≡ record self.old { guest = with_queue self.old.guest offset is_stalled } }
        ensures ready { IsReady self.new }
    {
        self.guest.offset = offset;
        self.guest.is_stalled = is_stalled;
    }

    /// The mark of GICD_CTLR is an actor's, or free.
    pub(crate) fn set_spreads(&mut self, mark: Option<u32>)
        requires ready { IsReady self.old }
        ensures value { self.new ≡ record self.old { spreads = mark } }
        ensures ready { IsReady self.new }
    {
        self.spreads = mark;
    }

    /// The mark of the ITS is an actor's, or free.
    pub(crate) fn set_its(&mut self, mark: Option<u32>)
        requires ready { IsReady self.old }
        ensures value { self.new ≡ record self.old { has_its = mark } }
        ensures ready { IsReady self.new }
    {
        self.has_its = mark;
    }

    /// An interrupt becomes pending.
    pub(crate) fn raise(&mut self, key: Key)
        requires ready { IsReady self.old }
        requires key { IsTrue (has_interrupt self.old.guest.shape key) }
        ensures value { self.new ≡ record self.old { guest = changed_irq key raised self.old.guest } }
        ensures ready { IsReady self.new }
    {
        let irq = self.irq(key);
        self.set_irq(key, irq.raised());
    }

    /// The wire of an interrupt moves.
    pub(crate) fn wire(&mut self, key: Key, up: bool)
        requires ready { IsReady self.old }
        requires key { IsTrue (has_interrupt self.old.guest.shape key) }
        ensures value { self.new ≡ record self.old { guest = changed_irq key (λ irq. if up then wire_up irq else wire_down irq) self.old.guest } }
        ensures ready { IsReady self.new }
    {
        let irq = self.irq(key);
        let moved = if up { irq.wire_up() } else { irq.wire_down() };
        self.set_irq(key, moved);
    }

    /// The record of an interrupt is read or changed.
    pub(crate) fn touch(&mut self, key: Key, touching: Touching)
        requires ready { IsReady self.old }
        requires can { CanTouch self.old.guest.shape key touching }
        ensures value { self.new ≡ record self.old { guest = changed_irq key (touched self.old.guest.shape key touching) self.old.guest } }
        ensures ready { IsReady self.new }
    {
        let irq = self.irq(key);
        let shape = self.guest.shape;
        self.set_irq(key, touching.applied(key, &irq, &shape));
    }

    /// EnableLPIs of a vCPU's redistributor becomes 1.
    pub(crate) fn enable(&mut self, vcpu: u32)
        requires ready { IsReady self.old }
        requires there { vcpu < self.old.guest.shape.vcpus }
        ensures value { self.new ≡ record self.old { guest = after_event self.old.guest (Event.Enable vcpu) } }
        ensures ready { IsReady self.new }
    {
        let cpu = self.cpu(vcpu);
        self.set_cpu(vcpu, CpuRec { lpis: true, ..cpu });
    }

    /// The queue of the ITS runs, or stalls at a command with a fault.
    pub(crate) fn queue(&mut self, offset: u32, change: QueueChange)
        requires ready { IsReady self.old }
        requires can { HappensFreely self.old.guest.shape (Event.Queue offset change) }
        ensures value { self.new ≡ record self.old { guest = after_event self.old.guest (Event.Queue offset change) } }
        ensures ready { IsReady self.new }
    {
        match change {
            QueueChange::Runs => self.set_queue(offset, false),
            QueueChange::Stalls { fault } => {
                self.set_word(PlainWord::Fault, u64::from(fault));
                self.set_queue(offset, true);
            }
            QueueChange::Done { .. } => unreachable!(),
        }
    }
}
