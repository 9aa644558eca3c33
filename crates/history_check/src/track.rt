//! What a history says of its actors and its interrupts: which calls are open, and who changed what since when.
ghost use Rattle.std.specs.Prelude.{◌≡◌, ◌&&◌, ◌==◌, is_some};
ghost use Rattle.floor_histories.specs.Histories.{is_open};
ghost use Rattle.history_check.specs.Track.{doing_in};

use floor_histories::{Key, ListOf, Operation};
use std::marker::Model;

/// A call of an actor, or one of the commands of a call: the actor's calls and commands are numbered.
#[derive(Debug, Drop)]
pub struct Turn {
    pub actor: u32,
    pub number: u64,
}

impl Model for Turn {
    ghost use Rattle.floor_histories.specs.Histories.{Turn};

    ghost Value = { Turn };

    ghost view = { λ t. record { actor = t.actor; number = t.number } };
}

/// An actor: what its call is for, if it is in one, the number of that, the interrupts of the events that it made in it, and
/// whether it has begun to read the next command of the ITS.
#[derive(Debug, Drop)]
pub struct Doing {
    pub operation: Option<Operation>,
    pub number: u64,
    pub done: ListOf<Key>,
    pub fetched: bool,
}

impl Model for Doing {
    ghost use Rattle.floor_histories.specs.Histories.{Doing};

    ghost Value = { Doing };

    ghost view = { λ d. record { operation = d.operation; number = d.number; done = d.done; fetched = d.fetched } };
}

/// An interrupt: who changed it last, and who did since it got to the interface where it is, oldest first.
#[derive(Debug, Drop)]
pub struct Changes {
    pub last: Option<Turn>,
    pub since: ListOf<Turn>,
}

impl Model for Changes {
    ghost use Rattle.floor_histories.specs.Histories.{Changes};

    ghost Value = { Changes };

    ghost view = { λ c. record { last = c.last; since = c.since } };
}

/// An interrupt that is to leave a vCPU's interface before its call ends.
#[derive(Debug, Drop)]
pub struct Leaving {
    pub vcpu: u32,
    pub key: Key,
}

impl Model for Leaving {
    ghost use Rattle.std.specs.Prelude.{ℕ};
    ghost use Rattle.floor_histories.specs.Words.{Key as KeyOf};

    ghost Value = { ℕ × KeyOf };

    ghost view = { λ l. (l.vcpu, l.key) };
}

/// What a history says of its actors and of its interrupts, by place; and which interrupts are to leave which vCPU's
/// interface before its call ends. Whoever plays the history keeps it.
#[derive(Debug, Drop)]
pub struct Track {
    pub doings: ListOf<Doing>,
    pub changes: ListOf<Changes>,
    pub leaving: ListOf<Leaving>,
}

impl Model for Track {
    ghost use Rattle.floor_histories.specs.Histories.{Track};

    ghost Value = { Track };

    ghost view = { λ t. record { doings = t.doings; changes = t.changes; leaving = t.leaving } };
}

/// Whether an actor is in the call of a number.
fn is_in(doings: &[Doing], actor: u32, number: u64) -> bool
    ensures { result ≡ (is_some (doing_in doings.now actor).operation && (doing_in doings.now actor).number == number) }
{
    match doings.get(actor as usize) {
        Some(doing) => doing.operation.is_some() && doing.number == number,
        None => false,
    }
}

impl Track {
    /// Whether a call is open to a vCPU: another actor is in it.
    pub fn is_open(&self, vcpu: u32, turn: &Turn) -> bool
        ensures { result ≡ is_open self.now vcpu turn.now }
    {
        let within = is_in(self.doings.as_slice(), turn.actor, turn.number);
        turn.actor != vcpu && within
    }
}
