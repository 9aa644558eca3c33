//! What an actor does.
ghost use Rattle.std.specs.Prelude.{◌≡◌, ◌<◌, ◌+◌, ◌^◌, IfOk};
ghost use Rattle.history_check.specs.Histories.{after_doing};
ghost use Rattle.history_check.specs.Ready.{IsReady};

use history_check::{Doing, Event, Key, ListOf, State, key_in};
use std::alloc::{AllocError, Global};

/// A second list of the same interrupts.
pub(crate) fn copied_keys(alloc: Global, keys: &[Key]) -> Result<ListOf<Key>, AllocError>
    ensures { IfOk result (λ all. all ≡ keys.now) }
{
    let mut all = ListOf::new(alloc);
    for key in keys {
        all.push(*key)?;
    }
    Ok(all)
}

/// What an actor does after an event that it made in a state: a command that ended begins the next, counts as a call of its
/// own, and is still to be read.
pub(crate) fn doing_after(
    alloc: Global,
    state: &State,
    doing: &Doing,
    actor: u32,
    event: &Event,
) -> Result<Doing, AllocError>
    requires ready { IsReady state.now }
    requires room { doing.now.number + 1 < 2 ^ 64 }
    ensures { IfOk result (λ after. after ≡ after_doing state.now actor event.now doing.now) }
{
    let operation = doing.operation;
    if let Event::Queue { .. } = *event {
        return Ok(Doing {
            operation,
            number: doing.number + 1,
            done: ListOf::new(alloc),
            fetched: false,
        });
    }
    let mut done = copied_keys(alloc, doing.done.as_slice())?;
    if let Some(key) = key_in(event) {
        done.push(key)?;
    }
    Ok(Doing {
        operation,
        number: doing.number,
        done,
        fetched: doing.fetched || state.is_fetch(actor, event),
    })
}
