//! The events of a call.
use floor_calls::{Event, Found};
use std::marker::Model;

/// An event that an actor made in its call, and what it handed out.
#[derive(Debug, Drop)]
pub struct Made {
    pub event: Event,
    pub found: Found,
}

impl Model for Made {
    ghost use Rattle.history_calls.specs.Calls.{Happened};

    ghost Value = { Happened };

    ghost view = { λ m. record { event = m.event; found = m.found } };
}
