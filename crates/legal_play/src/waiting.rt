//! Interrupts that wait for an answer.
ghost use Rattle.std.specs.Prelude.{◌≡◌, ◌==◌, not, ◌++◌, filter, filter_map, IfOk};
ghost use Rattle.legal_steps.specs.Histories.{ends_turn as ends_turn_with, is_event_of as is_event_of_key};
ghost use Rattle.legal_steps.specs.Waiting.{has_actor as has_actor_in, without_actor as without_actor_of, waiting_after as waiting_after_of};

use history_play::{Event, Key, ListOf, Moment, key_in};
use std::alloc::{AllocError, Global};
use std::marker::Model;

/// An interrupt that a read of IAR or HPPIR passed by, and the actors that are still in the call, or the command of one, in which they
/// may answer.
#[derive(Debug, Drop)]
pub struct Waiting {
    pub key: Key,
    pub actors: ListOf<u32>,
}

impl Model for Waiting {
    ghost use Rattle.legal_steps.specs.Waiting.{Waiting};

    ghost Value = { Waiting };

    ghost view = { λ w. record { key = w.key; actors = w.actors } };
}

/// These actors but for one.
fn others(alloc: Global, actors: &[u32], actor: u32) -> Result<ListOf<u32>, AllocError>
    ensures { IfOk result (λ all. all ≡ filter (λ other. not (actor == other)) actors.now) }
{
    let mut all = ListOf::new(alloc);
    for other in actors {
        if actor != *other {
            all.push(*other)?;
        }
    }
    Ok(all)
}

/// A second list of the same actors.
fn copied(alloc: Global, actors: &[u32]) -> Result<ListOf<u32>, AllocError>
    ensures { IfOk result (λ all. all ≡ actors.now) }
{
    let mut all = ListOf::new(alloc);
    for actor in actors {
        all.push(*actor)?;
    }
    Ok(all)
}

/// Whether a command ends with an event.
fn ends_turn(event: &Event) -> bool
    ensures { result ≡ ends_turn_with event.now }
{
    matches!(event, Event::Queue { .. })
}

/// Whether an event is of an interrupt.
fn is_event_of(key: Key, event: &Event) -> bool
    ensures { result ≡ is_event_of_key key event.now }
{
    key_in(event) == Some(key)
}

impl Waiting {
    /// Whether an actor may still answer.
    fn has_actor(&self, actor: u32) -> bool
        ensures { result ≡ has_actor_in self.now actor }
    {
        self.actors.iter().any(|other| actor == *other)
    }

    /// The same, but that an actor answers no more.
    fn without_actor(&self, alloc: Global, actor: u32) -> Result<Waiting, AllocError>
        ensures { IfOk result (λ less. less ≡ without_actor_of actor self.now) }
    {
        Ok(Waiting {
            key: self.key,
            actors: others(alloc, self.actors.as_slice(), actor)?,
        })
    }

    /// The same after a moment, if it still waits.
    fn after(&self, alloc: Global, moment: &Moment) -> Result<Option<Waiting>, AllocError>
        ensures { IfOk result (λ after. after ≡ waiting_after_of moment.now self.now) }
    {
        match *moment {
            Moment::Begin { actor, .. } | Moment::End { actor, .. } => {
                Ok(Some(self.without_actor(alloc, actor)?))
            }
            Moment::Happens { actor, event, .. } => {
                if ends_turn(&event) {
                    return Ok(Some(self.without_actor(alloc, actor)?));
                }
                if self.has_actor(actor) && is_event_of(self.key, &event) {
                    return Ok(None);
                }
                Ok(Some(Waiting {
                    key: self.key,
                    actors: copied(alloc, self.actors.as_slice())?,
                }))
            }
        }
    }
}

/// Those that still wait after a moment.
pub(crate) fn still_waiting(
    alloc: Global,
    waits: &[Waiting],
    moment: &Moment,
) -> Result<ListOf<Waiting>, AllocError>
    ensures { IfOk result (λ rest. rest ≡ filter_map (waiting_after_of moment.now) waits.now) }
{
    let mut rest = ListOf::new(alloc);
    for waiting in waits {
        if let Some(after) = waiting.after(alloc, moment)? {
            rest.push(after)?;
        }
    }
    Ok(rest)
}
