//! The reading of a trace.
ghost use Rattle.std.specs.Prelude.{◌≡◌, ◌≤◌, ◌+◌, MatchResult, IfOk, IfErr, Ok, Some, length, map, option_map};
ghost use Rattle.serde_json.specs.View.{view};
ghost use Rattle.scn_read.specs.ScnBase.Words.{IsShape};
ghost use Rattle.scn_read.specs.GicGuest.Good.{IsGoodGuest};
ghost use Rattle.scn_read.specs.Reading.{Refuses};
ghost use Rattle.trace_read.specs.Reading.{AreEvents, AreThere, guest_said, own_fault, events_of, reading};

use crate::event::event;
use crate::trace::{EventList, Trace};
use floor_calls::{GuestShape, GuestSpec};
use json_field::{has_only, list_at};
use scn_read::{Fault, LIMIT, ReadRefusal, SHAPE, both, read_guest};
use serde_json::Value;
use std::alloc::{AllocError, Global};

const GUEST: &str = "guest";

const EVENTS: &str = "events";
/// The fields of a trace.
const TRACE_FIELDS: [&str; 2] = [GUEST, EVENTS];

/// The most events of a trace.
pub const MAX_EVENTS: usize = 100_000;

/// The event of a fault outside of the events.
const OUTSIDE: u32 = 0;
/// The number of the first event.
const FIRST_EVENT: u32 = 1;

/// The events of a trace, or the fault of its own fields.
fn events_at(value: &Value) -> Result<&[Value], u8>
    ensures { let d = view value.now in MatchResult result
        (λ events. AreEvents d (map view events.now))
        (λ code. own_fault d ≡ Some code) }
{
    if !has_only(value, &TRACE_FIELDS) || value.get(GUEST).is_none() {
        return Err(SHAPE);
    }
    let events = list_at(value, EVENTS).ok_or(SHAPE)?;
    if events.len() > MAX_EVENTS {
        return Err(LIMIT);
    }
    Ok(events)
}

/// The guest that stands in a field, or its fault.
fn guest_in(alloc: Global, found: Option<&Value>) -> Result<Result<GuestSpec, u8>, AllocError>
    ensures { IfOk result (λ guest. guest ≡ guest_said (option_map (λ v. view v.now) found.entry)) }
{
    match found {
        Some(value) => read_guest(alloc, value),
        None => Ok(Err(SHAPE)),
    }
}

/// The events that JSON values are, the first of which has the number `first`, from 1, and the last one at most 100,000. `Bad` is the first
/// fault of them; where memory is refused, the answer is `NoMemory`.
fn events(
    alloc: Global,
    values: &[Value],
    shape: &GuestShape,
    first: u32,
) -> Result<EventList, ReadRefusal>
    requires shape { IsShape shape.now }
    requires few { first + length values.now ≤ 100001 }
    ensures ok { IfOk result (λ events. events_of shape.now first (map view values.now) ≡ Ok events) }
    ensures bad { IfErr result (Refuses (events_of shape.now first (map view values.now))) }
{
    let mut events = EventList::new(alloc);
    for (index, value) in values.iter().enumerate() {
        match event(value, shape) {
            Ok(event) => events.push(event)?,
            Err(code) => {
                return Err(ReadRefusal::Bad(Fault {
                    code,
                    step: first + index as u32,
                }));
            }
        }
    }
    Ok(events)
}

/// The trace that a JSON value is: an object with a guest, as a scenario has it, and at most 100,000 events.
///
/// A number is an unsigned integer below 2^64, or a text of `0x` and 1 to 16 hexadecimal digits. A value that is no trace is
/// `Bad`, with the first of its faults: that of the least event, where 0 is the number of all that stands outside of the events, and of
/// these the least code: 1 where something is missing, unknown or of the wrong kind, 2 where a number is outside of its range, 3 where a register
/// is not there or not accessed so, 4 where an actor, a vCPU or an interrupt is not there, 9 where an address is outside of its frame. Whether
/// what the events say can be is not asked. Where memory is refused, the answer is `NoMemory`, whatever the value is. It takes time linear
/// in the value.
pub fn read_trace(alloc: Global, value: &Value) -> Result<Trace, ReadRefusal>
    ensures ok { IfOk result (λ trace. reading (view value.now) ≡ Ok trace) }
    ensures good { IfOk result (λ trace. IsGoodGuest trace.guest) }
    ensures few { IfOk result (λ trace. length trace.events ≤ 100000) }
    ensures there { IfOk result (λ trace. AreThere trace.guest.shape trace.events) }
    ensures bad { IfErr result (Refuses (reading (view value.now))) }
{
    let guest = guest_in(alloc, value.get(GUEST))?;
    let (values, guest) = match both(events_at(value), guest) {
        Ok(parts) => parts,
        Err(code) => {
            return Err(ReadRefusal::Bad(Fault {
                code,
                step: OUTSIDE,
            }));
        }
    };
    let events = events(alloc, values, &guest.shape, FIRST_EVENT)?;
    Ok(Trace { guest, events })
}
