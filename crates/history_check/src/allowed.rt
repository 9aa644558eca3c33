//! Which events an actor may make.
ghost use Rattle.std.specs.Prelude.{◌≡◌, ◌<◌, ◌&&◌, IsTrue, false};
ghost use Rattle.std.specs.Option.{option_map_or};
ghost use Rattle.floor_histories.specs.Words.{has_interrupt, is_number};
ghost use Rattle.floor_histories.specs.Histories.{irq_at, cpu_at, is_home, moved_at, is_allowed};
ghost use Rattle.floor_histories.specs.Calls.{may_reach as can_reach, may_take as can_take, CanHappen};
ghost use Rattle.history_check.specs.Ready.{IsReady};

use crate::state::State;
use floor_histories::{Event, Key, may_reach, may_take};

/// Whether the actor has a mark.
pub(crate) fn has_mark(mark: Option<u32>, actor: u32) -> bool
    ensures { result ≡ is_number actor mark }
{
    mark == Some(actor)
}

impl State {
    /// Whether an interrupt is home and may get to a vCPU's interface: it is deliverable to the vCPU, or active by it.
    fn may_reach(&self, key: Key, vcpu: u32) -> bool
        requires ready { IsReady self.now }
        requires key { IsTrue (has_interrupt self.now.guest.shape key) }
        requires vcpu { vcpu < self.now.guest.shape.vcpus }
        ensures { result ≡ (is_home self.now key && can_reach self.now.guest.shape key (irq_at self.now.guest key) vcpu (cpu_at self.now.guest vcpu)) }
    {
        let irq = self.irq(key);
        let cpu = self.cpu(vcpu);
        let may = may_reach(key, &irq, vcpu, &cpu);
        self.is_home(key) && may
    }

    /// Whether an interrupt is active and not pending at a vCPU's interface, and may become pending there too.
    fn may_take(&self, key: Key, vcpu: u32) -> bool
        requires ready { IsReady self.now }
        requires key { IsTrue (has_interrupt self.now.guest.shape key) }
        requires vcpu { vcpu < self.now.guest.shape.vcpus }
        ensures { result ≡ option_map_or (λ moved. can_take self.now.guest.shape key moved vcpu (cpu_at self.now.guest vcpu)) (moved_at self.now vcpu key) false }
    {
        let cpu = self.cpu(vcpu);
        match self.moved(key, vcpu) {
            Some(moved) => may_take(key, &moved, vcpu, &cpu),
            None => false,
        }
    }

    /// Whether an actor may make an event that the guest can have: an interrupt is touched only at home; it moves only where
    /// it may; and a mark is taken where it is free, and used and freed by who has it. All else is always allowed.
    pub fn is_allowed(&self, actor: u32, event: &Event) -> bool
        requires ready { IsReady self.now }
        requires can { CanHappen self.now.guest.shape event.now }
        ensures { result ≡ is_allowed self.now actor event.now }
    {
        match *event {
            Event::Touch { key, .. } => self.is_home(key),
            Event::Reach { key, vcpu } => self.may_reach(key, vcpu),
            Event::Take { key, vcpu } => self.may_take(key, vcpu),
            Event::Leave { key, vcpu } => self.moved(key, vcpu).is_some(),
            Event::CtlrBegin { .. } => self.spreads.is_none(),
            Event::CtlrEnd => has_mark(self.spreads, actor),
            Event::ItsBegin => self.has_its.is_none(),
            Event::Queue { .. } | Event::ItsEnd => has_mark(self.has_its, actor),
            Event::Raise { .. } | Event::Up { .. } | Event::Down { .. } | Event::Enable { .. } =>
                true,
            Event::Cpu { .. } | Event::Read { .. } | Event::Put { .. } => true,
        }
    }
}
