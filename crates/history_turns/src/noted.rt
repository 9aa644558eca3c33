//! What a call is judged by beside its own events.
ghost use Rattle.std.specs.Prelude.{◌≡◌};
ghost use Rattle.history_turns.specs.Noted.{seen_at as seen_in, with_target as with_target_in};

use history_commands::ListOf;
use std::marker::Model;

/// For which vCPUs an LPI was while a call that sets EnableLPIs of one went on, or, once that came to the LPIs of its pending
/// table, while it came past this one.
#[derive(Clone, Copy, Debug, PartialEq, Eq, Hash)]
pub struct Seen {
    /// It was for the vCPU whose EnableLPIs the call sets.
    pub is_own: bool,
    /// It was for another vCPU, or for none.
    pub is_other: bool,
}

impl Seen {
    /// Of an LPI of which nothing is noted.
    pub const NOTHING: Seen = Seen {
        is_own: false,
        is_other: false,
    };

    /// With a further moment, at which the LPI is for this target, in a call that sets EnableLPIs of this vCPU.
    pub fn with_target(self, vcpu: u32, target: Option<u32>) -> Seen
        ensures { result ≡ with_target_in vcpu target self }
    {
        if target == Some(vcpu) {
            Seen {
                is_own: true,
                ..self
            }
        } else {
            Seen {
                is_other: true,
                ..self
            }
        }
    }
}

/// What a call noted of its guest as its events happened.
#[derive(Debug, Drop)]
pub struct Noted {
    /// A message-signalled interrupt has raised the LPI that it signalled at that moment.
    pub signals: bool,
    /// The LPI that a message-signalled interrupt signals while the ITS is enabled, by the maps as its call took that.
    pub lpi: Option<u32>,
    /// Of a call that sets EnableLPIs: for which vCPUs each LPI was, in rising INTID.
    pub targets: ListOf<Seen>,
    /// Of a write of a register of the ITS that takes it: the doublewords of all commands that were done before that, oldest first.
    pub done: ListOf<[u64; 4]>,
    /// And for which vCPU each LPI was as each of its own commands began, in rising INTID.
    pub commands: ListOf<ListOf<Option<u32>>>,
}

impl Model for Noted {
    ghost use Rattle.history_turns.specs.Noted.{NotedOf};

    ghost Value = { NotedOf };

    ghost view = { λ n. record { signals = n.signals; lpi = n.lpi; targets = n.targets; done = n.done; commands = n.commands } };
}

/// What is noted of the LPI of a number from 0.
pub(crate) fn seen_at(noted: &Noted, number: u32) -> Seen
    ensures { result ≡ seen_in noted.now number }
{
    match noted.targets.get(number as usize) {
        Some(seen) => *seen,
        None => Seen::NOTHING,
    }
}
