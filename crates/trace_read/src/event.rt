//! One event.
ghost use Rattle.std.specs.Prelude.{◌≡◌, option_and_then};
ghost use Rattle.serde_json.specs.View.{view};
ghost use Rattle.scn_read.specs.ScnBase.Words.{IsShape};
ghost use Rattle.scn_read.specs.JsonField.Field.{list_at as list_in_field};
ghost use Rattle.trace_read.specs.Part.{two_in};
ghost use Rattle.trace_read.specs.Reading.{actor_numbered, actor_at as actor_in_field, event_said, event_of};

use crate::act::act;
use crate::fault::event_fault;
use crate::field::ActField;
use crate::name::narrowed;
use crate::trace::TraceEvent;
use floor_calls::{Actor, GuestShape};
use json_field::{has_only, list_at, number_of};
use scn_read::SHAPE;
use serde_json::Value;

const BY: &str = "by";

const VCPU: &str = "v";

const DEVICE: &str = "d";

/// The number of the one guest.
const GUEST: u32 = 0;

/// The vCPU or the device of this number.
fn numbered(kind: &str, number: u64) -> Option<Actor>
    ensures { result ≡ actor_numbered kind.now number }
{
    let number = narrowed(number);
    if kind == VCPU {
        return Some(Actor::Vcpu {
            guest: GUEST,
            vcpu: number,
        });
    }
    if kind == DEVICE {
        return Some(Actor::Device {
            guest: GUEST,
            device: number,
        });
    }
    None
}

/// Who acts.
fn actor_at(value: &Value) -> Option<Actor>
    ensures { result ≡ actor_in_field (view value.now) }
{
    match list_at(value, BY)? {
        [kind, number] => numbered(kind.as_str()?, number_of(number)?),
        _ => None,
    }
}

/// What an event says, or the code of what it does not say.
fn said(value: &Value) -> Result<TraceEvent, u8>
    ensures { result ≡ event_said (view value.now) }
{
    let by = actor_at(value).ok_or(SHAPE)?;
    let field = ActField::of(value).ok_or(SHAPE)?;
    if !has_only(value, &[BY, field.name()]) {
        return Err(SHAPE);
    }
    let act = act(by, field, value.get(field.name()).ok_or(SHAPE)?)?;
    Ok(TraceEvent { by, act })
}

/// What an event says, or the code of its fault, judged by what the guest has.
pub(crate) fn event(value: &Value, shape: &GuestShape) -> Result<TraceEvent, u8>
    requires { IsShape shape.now }
    ensures { result ≡ event_of shape.now (view value.now) }
{
    let event = said(value)?;
    match event_fault(&event, shape) {
        Some(code) => Err(code),
        None => Ok(event),
    }
}
