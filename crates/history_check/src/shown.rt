//! An interrupt at a CPU interface as accesses of its registers see it.
ghost use Rattle.std.specs.Prelude.{◌≡◌};
ghost use Rattle.floor_histories.specs.Words.{has_active_state as keeps_active};
ghost use Rattle.floor_histories.specs.Registers.{candidate_of};
ghost use Rattle.history_check.specs.Access.{accessed_one};

use crate::standing::Standing;
use floor_histories::{Candidate, CpuRec, Entry, Group, Key, listens};
use std::marker::Model;

/// An interrupt at a CPU interface, with the priority and the group of its record.
#[derive(Debug, Drop)]
pub(crate) struct Shown {
    pub(crate) key: Key,
    pub(crate) prio: u8,
    pub(crate) group: Group,
    pub(crate) entry: Entry,
}

impl Model for Shown {
    ghost use Rattle.floor_histories.specs.Registers.{AtInterface};

    ghost Value = { AtInterface };

    ghost view = { λ s. record {
      key = s.key;
      prio = s.prio;
      group = s.group;
      pending = s.entry.pending;
      active = s.entry.active;
      rise = s.entry.rise;
      soft = s.entry.soft;
    } };
}

/// An LPI is never active.
fn has_active_state(key: Key) -> bool
    ensures { result ≡ keeps_active key }
{
    !matches!(key, Key::Lpi(_))
}

impl Shown {
    /// The interrupt as a candidate for delivery, if it is one.
    pub(crate) fn candidate(&self, cpu: &CpuRec) -> Option<Candidate>
        ensures { result ≡ candidate_of cpu.now self.now }
    {
        let is = self.entry.pending && !self.entry.active && listens(cpu, self.group);
        is.then_some(Candidate {
            id: self.key.intid(),
            prio: self.prio,
            group: self.group,
        })
    }

    /// What an access leaves of it that acknowledges a candidate and deactivates the interrupt with an INTID, or none.
    pub(crate) fn accessed(&self, taken: Option<Candidate>, ended: Option<u32>) -> Standing
        ensures { result ≡ accessed_one taken ended self.now }
    {
        let mut entry = self.entry;
        if taken.is_some_and(|found| found.id == self.key.intid()) {
            entry = Entry {
                pending: false,
                active: has_active_state(self.key),
                rise: false,
                soft: false,
            };
        }
        if ended == Some(self.key.intid()) {
            entry = Entry {
                active: false,
                ..entry
            };
        }
        Standing {
            key: self.key,
            entry,
        }
    }
}
