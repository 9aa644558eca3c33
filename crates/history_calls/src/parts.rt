//! Registers that have a part for each interrupt: which events an access makes, and what it reads.
ghost use Rattle.std.specs.Prelude.{◌≡◌, ◌<◌, ◌+◌, ◌^◌, IfOk};
ghost use Rattle.history_calls.specs.Words.{IsShape};
ghost use Rattle.history_calls.specs.Registers.{part_bits};
ghost use Rattle.history_calls.specs.Calls.{FitParts, part_at as part_held, part_value as part_value_in, part_events as part_events_of};
ghost use Rattle.history_calls.specs.Found.{found_by};
ghost use Rattle.history_calls.specs.Exact.{HasRecords};

use crate::last::irq_at;
use crate::made::Made;
use floor_calls::{
    Event, Frame, GuestShape, Kind, ListOf, part_key, part_touch, read_part, with_part,
};
use std::alloc::{AllocError, Global};

/// What the part of an interrupt reads, by the number of the part from a first INTID on.
pub(crate) fn part(
    shape: &GuestShape,
    piece: &[Made],
    frame: Frame,
    kind: Kind,
    first: u32,
    number: u32,
) -> u64
    requires shape { IsShape shape.now }
    requires records { HasRecords shape.now piece.now }
    requires intid { first + number < 2 ^ 32 }
    ensures value { result ≡ part_held shape.now (found_by piece.now) frame kind first number }
    ensures fits { result < 2 ^ part_bits kind }
{
    match part_key(frame, kind, first + number, shape) {
        Some(key) => read_part(kind, &irq_at(piece, key)),
        None => 0,
    }
}

/// What a read of the parts of interrupts answers.
pub(crate) fn part_value(
    shape: &GuestShape,
    piece: &[Made],
    frame: Frame,
    kind: Kind,
    first: u32,
    count: u32,
) -> u64
    requires shape { IsShape shape.now }
    requires records { HasRecords shape.now piece.now }
    requires fits { FitParts kind first count }
    ensures { result ≡ part_value_in shape.now (found_by piece.now) frame kind first count }
{
    let mut value = 0;
    for number in 0..count {
        value = with_part(
            kind,
            value,
            part(shape, piece, frame, kind, first, number),
            number,
        );
    }
    value
}

/// The touches of an access: a read, or a write of a value.
pub(crate) fn part_events(
    alloc: Global,
    shape: &GuestShape,
    frame: Frame,
    kind: Kind,
    first: u32,
    count: u32,
    write: Option<u64>,
) -> Result<ListOf<Event>, AllocError>
    requires shape { IsShape shape.now }
    requires fits { FitParts kind first count }
    ensures { IfOk result (λ events. events ≡ part_events_of shape.now frame kind first count write) }
{
    let mut events = ListOf::new(alloc);
    for number in 0..count {
        if let Some(key) = part_key(frame, kind, first + number, shape) {
            let touching = part_touch(kind, write, number);
            events.push(Event::Touch { key, touching })?;
        }
    }
    Ok(events)
}
