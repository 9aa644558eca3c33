//! One link with its two interrupts.
ghost use Rattle.std.specs.Prelude.{◌≡◌, map};
ghost use Rattle.gic_host.specs.State.{opening_link, settled_link, set_by as changed_by, is_of as is_of_phys, with_set, is_pending as is_pending_state, is_active as is_active_state, is_at as is_at_vcpu};
ghost use Rattle.gic_host.specs.Text.{irq_of};

use crate::link::Link;
use crate::step::PhysSet;
use floor_lists::{Group, Irq, Route};

/// The state of a virtual interrupt. It is never pending and active: what is latched while it is active waits in the
/// physical interrupt.
#[derive(Clone, Copy, Debug, PartialEq, Eq, Hash)]
pub enum Virtual {
    Idle,
    Pending,
    Active,
}

/// A link, the state of its physical interrupt, and that of its virtual one.
#[derive(Clone, Copy, Debug, PartialEq, Eq, Hash)]
pub struct LinkState {
    pub link: Link,
    /// The physical interrupt is enabled.
    pub enabled: bool,
    /// It is latched pending.
    pub latch: bool,
    /// It is active: the hypervisor took it, and the virtual one has not ended.
    pub active: bool,
    /// The virtual interrupt.
    pub state: Virtual,
}

impl Virtual {
    pub(crate) fn is_pending(self) -> bool
        ensures { result ≡ is_pending_state self }
    {
        matches!(self, Virtual::Pending)
    }

    pub(crate) fn is_active(self) -> bool
        ensures { result ≡ is_active_state self }
    {
        matches!(self, Virtual::Active)
    }
}

impl LinkState {
    /// A link as a run begins: its physical interrupt is enabled, and nothing is pending or active.
    pub(crate) fn opening(link: Link) -> LinkState
        ensures { result ≡ opening_link link }
    {
        LinkState {
            link,
            enabled: true,
            latch: false,
            active: false,
            state: Virtual::Idle,
        }
    }

    /// The link after the hypervisor has taken its physical interrupt, where it can.
    pub(crate) fn settled(self) -> LinkState
        ensures { result ≡ settled_link self }
    {
        if !(self.latch && self.enabled && !self.active) {
            return self;
        }
        LinkState {
            latch: false,
            active: true,
            state: Virtual::Pending,
            ..self
        }
    }

    /// Whether the link is of this physical interrupt.
    pub(crate) fn is_of(&self, phys: u32) -> bool
        ensures { result ≡ is_of_phys phys self.now }
    {
        self.link.phys == phys
    }

    fn changed_by(self, set: PhysSet) -> LinkState
        ensures { result ≡ changed_by set self }
    {
        match set {
            PhysSet::Pend => LinkState {
                latch: true,
                ..self
            },
            PhysSet::Clear => LinkState {
                latch: false,
                ..self
            },
            PhysSet::Enable => LinkState {
                enabled: true,
                ..self
            },
            PhysSet::Disable => LinkState {
                enabled: false,
                ..self
            },
        }
    }

    /// The link after a step on a physical interrupt.
    pub(crate) fn with_set(self, phys: u32, set: PhysSet) -> LinkState
        ensures { result ≡ with_set phys set self }
    {
        if self.is_of(phys) {
            self.changed_by(set)
        } else {
            self
        }
    }

    /// Whether the virtual interrupt is at the interface of a vCPU.
    pub(crate) fn is_at(&self, vcpu: u32) -> bool
        ensures { result ≡ is_at_vcpu vcpu self.now }
    {
        self.link.vcpu == vcpu && (self.state.is_pending() || self.state.is_active())
    }

    /// The virtual interrupt as a record.
    pub(crate) fn irq(&self) -> Irq
        ensures { result ≡ irq_of self.now }
    {
        Irq {
            prio: self.link.prio,
            enabled: true,
            group: Group::G1,
            edge: true,
            line: false,
            rise: self.state.is_pending(),
            soft: false,
            act_by: self.state.is_active().then_some(self.link.vcpu),
            holder: None,
            want: false,
            en0: true,
            en1: true,
            route: Route::Target(Some(self.link.vcpu)),
        }
    }
}
