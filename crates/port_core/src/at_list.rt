//! The interrupts at a vCPU's interface.
ghost use Rattle.std.specs.Prelude.{◌≡◌, ◌<◌, ◌≤◌, ◌∷◌, ◌++◌, [], length, Option, is_some};
ghost use Rattle.core_words.specs.Words.{is_same_key, intid_of, is_number};
ghost use Rattle.port_core.specs.Local.{entry_for, without_at, arrived as arrived_of, entry_of as entry_in, back_of as back_in};
ghost use Rattle.port_core.specs.After.{acknowledged_entry, deactivated_entry, changed_id};
ghost use Rattle.port_core.specs.AtList.{changed_by, changed_if, changed_where, is_which};

use arrayvec::ArrayVec;
use core_words::{Back, Entry, Group, Irq, Key, MAX_LIST_REGISTERS, has_active_state};
use std::marker::Model;

/// An interrupt at a vCPU's interface, as the vCPU has it for itself.
#[derive(Clone, Copy, Debug, PartialEq, Eq, Hash)]
pub struct AtIrq {
    pub key: Key,
    /// The priority that it came with, which no register changes while it is here.
    pub entry_prio: u8,
    /// The group that it came with, likewise.
    pub group: Group,
    /// Not acknowledged yet, or pending again while it is active.
    pub pending: bool,
    /// Acknowledged and not deactivated yet.
    pub active: bool,
    /// The wire's rise that came with it, until an acknowledge consumes it.
    pub rise: bool,
    /// The cause by software that came with it, likewise.
    pub soft: bool,
    /// An acknowledge consumed what came with it last.
    pub consumed: bool,
    /// It was given back, and is to be released.
    pub given: bool,
}

impl Default for AtIrq {
    fn default() -> Self {
        AtIrq {
            key: Key::Spi(0),
            entry_prio: 0,
            group: Group::G0,
            pending: false,
            active: false,
            rise: false,
            soft: false,
            consumed: false,
            given: false,
        }
    }
}

/// Which interrupts of an interface are meant.
#[derive(Clone, Copy)]
pub(crate) enum Which {
    /// The one with this key.
    Key(Key),
    /// The one with this INTID, if any.
    Id(Option<u32>),
}

/// A change of what an interface has of an interrupt.
#[derive(Clone, Copy)]
pub(crate) enum Change {
    /// It is given back.
    Given,
    /// It brings causes.
    Brings(Entry),
    /// It is acknowledged.
    Acknowledged,
    /// It is deactivated.
    Deactivated,
}

impl AtIrq {
    /// An interrupt that gets to an interface, with copies of its priority and its group.
    pub fn arrived(key: Key, irq: &Irq, entry: Entry) -> AtIrq
        ensures { result ≡ arrived_of key irq.now entry }
    {
        AtIrq {
            key,
            entry_prio: irq.prio,
            group: irq.group,
            pending: entry.pending,
            active: entry.active,
            rise: entry.rise,
            soft: entry.soft,
            consumed: false,
            given: false,
        }
    }

    /// What the interface has of it, as the moves between the distributor and an interface speak of it.
    pub fn entry(&self) -> Entry
        ensures { result ≡ entry_in self.now }
    {
        Entry {
            pending: self.pending,
            active: self.active,
            rise: self.rise,
            soft: self.soft,
        }
    }

    /// What comes back of it as it is given back: its causes, and whether it is active.
    pub fn back(&self) -> Back
        ensures { result ≡ back_in self.now }
    {
        Back {
            rise: self.rise,
            soft: self.soft,
            active: self.active,
        }
    }

    fn is(&self, which: Which) -> bool
        ensures { result ≡ is_which which self.now }
    {
        match which {
            Which::Key(key) => self.key == key,
            Which::Id(id) => id == Some(self.key.intid()),
        }
    }

    fn changed(self, change: Change) -> AtIrq
        ensures { result ≡ changed_by change self }
    {
        match change {
            Change::Given => AtIrq {
                given: true,
                ..self
            },
            Change::Brings(entry) => AtIrq {
                pending: entry.pending,
                active: entry.active,
                rise: entry.rise,
                soft: entry.soft,
                consumed: false,
                ..self
            },
            Change::Acknowledged => AtIrq {
                pending: false,
                active: has_active_state(self.key),
                rise: false,
                soft: false,
                consumed: true,
                ..self
            },
            Change::Deactivated => AtIrq {
                active: false,
                ..self
            },
        }
    }

    fn changed_if(self, which: Which, change: Change) -> AtIrq
        ensures { result ≡ changed_if (is_which which) (changed_by change) self }
    {
        if self.is(which) {
            self.changed(change)
        } else {
            self
        }
    }
}

/// The interrupts at a vCPU's interface, at most 16, in the order in which they came.
#[derive(Clone, Debug, Drop)]
pub struct AtList {
    entries: ArrayVec<AtIrq, MAX_LIST_REGISTERS>,
}

impl Model for AtList {
    ghost use Rattle.std.specs.Prelude.{List};
    ghost use Rattle.port_core.specs.declared.at_list.AtIrq.{AtIrq};

    ghost Value = { List AtIrq };

    ghost view = { λ at. at.entries.items };
}

impl AtList {
    /// No interrupt.
    pub fn new() -> AtList
        ensures { result ≡ [] }
    {
        AtList {
            entries: ArrayVec::new(),
        }
    }

    /// The interrupts.
    pub fn as_slice(&self) -> &[AtIrq]
        ensures value { result.now ≡ self.now }
        ensures room { length result.now ≤ 16 }
    {
        self.entries.as_slice()
    }

    /// A copy.
    pub(crate) fn copied(&self) -> AtList
        ensures { result ≡ self.now }
    {
        let mut copy = AtList::new();
        for entry in self.as_slice() {
            copy.push(*entry);
        }
        copy
    }

    /// What is there of an interrupt. None where it is not there.
    pub fn find(&self, key: Key) -> Option<AtIrq>
        ensures { result ≡ entry_for key self.now }
    {
        self.entries
            .as_slice()
            .iter()
            .copied()
            .find(|entry| entry.is(Which::Key(key)))
    }

    /// One more interrupt, where there are fewer than 16.
    pub(crate) fn push(&mut self, entry: AtIrq)
        requires { length self.old < 16 }
        ensures { self.new ≡ self.old ++ entry ∷ [] }
    {
        self.entries.push(entry);
    }

    /// A change of those that are meant.
    pub(crate) fn change(&mut self, which: Which, change: Change)
        ensures { self.new ≡ changed_where (is_which which) (changed_by change) self.old }
    {
        for entry in self.entries.as_mut_slice().iter_mut() {
            *entry = entry.changed_if(which, change);
        }
    }

    /// Without an interrupt.
    pub(crate) fn remove(&mut self, key: Key)
        ensures { self.new ≡ without_at key self.old }
    {
        self.entries.retain(|entry| !entry.is(Which::Key(key)));
    }
}
