//! What stands at a CPU interface.
ghost use Rattle.std.specs.Prelude.{◌≡◌, find, option_map, if◌then◌else◌};
ghost use Rattle.std.specs.List.{list_any};
ghost use Rattle.floor_histories.specs.Histories.{is_of};

use floor_histories::{Entry, Key, ListOf};
use std::marker::Model;

/// An interrupt at a CPU interface, with what the interface has of it.
#[derive(Debug, Drop)]
pub struct Standing {
    pub(crate) key: Key,
    pub(crate) entry: Entry,
}

impl Model for Standing {
    ghost use Rattle.floor_histories.specs.Histories.{Standing};

    ghost Value = { Standing };

    ghost view = { λ s. record { key = s.key; entry = s.entry } };
}

impl Standing {
    /// Whether it is this interrupt.
    pub fn is_of(&self, key: Key) -> bool
        ensures { result ≡ is_of key self.now }
    {
        self.key == key
    }

    /// What the interface has of it.
    pub fn entry(&self) -> Entry
        ensures { result ≡ self.now.entry }
    {
        self.entry
    }
}

impl Standing {
    /// A second standing, equal to this one.
    pub(crate) fn copied(&self) -> Standing
        ensures { result ≡ self.now }
    {
        Standing {
            key: self.key,
            entry: self.entry,
        }
    }

    /// With another entry, if it is this interrupt.
    pub(crate) fn with_entry_of(&self, key: Key, entry: Entry) -> Standing
        ensures { result ≡ (if is_of key self.now then record self.now { entry = entry } else self.now) }
    {
        let entry = if self.key == key { entry } else { self.entry };
        Standing {
            key: self.key,
            entry,
        }
    }
}

/// Whether an interrupt is among those at an interface.
pub(crate) fn is_among(standing: &[Standing], key: Key) -> bool
    ensures { result ≡ list_any (is_of key) standing.now }
{
    standing.iter().any(|one| one.is_of(key))
}

/// Whether an interrupt is at one of these interfaces.
pub(crate) fn is_somewhere(at: &[ListOf<Standing>], key: Key) -> bool
    ensures { result ≡ list_any (list_any (is_of key)) at.now }
{
    at.iter().any(|standing| is_among(standing.as_slice(), key))
}

/// What an interface has of an interrupt, if that is there.
pub(crate) fn entry_of(standing: &[Standing], key: Key) -> Option<Entry>
    ensures { result ≡ option_map (λ one. one.entry) (find (is_of key) standing.now) }
{
    for one in standing {
        if one.is_of(key) {
            return Some(one.entry());
        }
    }
    None
}
