//! What happens in an event, by what stands in its field.
ghost use Rattle.std.specs.Prelude.{◌≡◌, option_and_then, option_map};
ghost use Rattle.serde_json.specs.View.{view};
ghost use Rattle.scn_read.specs.JsonField.Field.{list_of as list_of_data};
ghost use Rattle.trace_read.specs.Part.{shaped, true_in, key_in as key_in_data, three_in, four_in, two_in};
ghost use Rattle.trace_read.specs.Act.{act_in, cpu_args, cpu_said, touch_in, place_and_value as place_and_value_in, read_of, put_of, ctlr_of, queue_of, queue_args};

use crate::call::call;
use crate::field::ActField;
use crate::part::{is_true, key_in, number_or_null, place_in};
use crate::place::Place;
use crate::trace::Act;
use crate::what::touching;
use floor_calls::{Actor, IccReg, Key};
use json_field::{list_of, number_of};
use scn_read::{LIMIT, SHAPE, UNKNOWN_REGISTER};
use serde_json::Value;

/// The greatest value of GICD_CTLR's two group enables.
const LAST_ENABLES: u64 = 3;

/// The name, the value that is written and the answer of an access of the CPU interface.
fn cpu_parts(value: &Value) -> Option<(&str, Option<u64>, Option<u64>)>
    ensures { option_map (λ parts. (parts.0.now, parts.1, parts.2)) result ≡ cpu_args (option_and_then three_in (list_of_data (view value.now))) }
{
    match list_of(value)? {
        [name, write, answer] => Some((
            name.as_str()?,
            number_or_null(write)?,
            number_or_null(answer)?,
        )),
        _ => None,
    }
}

fn cpu(value: &Value) -> Result<Act, u8>
    ensures { result ≡ cpu_said (cpu_args (option_and_then three_in (list_of_data (view value.now)))) }
{
    let (name, write, answer) = cpu_parts(value).ok_or(SHAPE)?;
    let reg = IccReg::named(name).ok_or(UNKNOWN_REGISTER)?;
    Ok(Act::Cpu { reg, write, answer })
}

fn touch(value: &Value) -> Result<Act, u8>
    ensures { result ≡ touch_in (option_and_then four_in (list_of_data (view value.now))) }
{
    match list_of(value).ok_or(SHAPE)? {
        [name, what, args, answer] => {
            let key = key_in(name).ok_or(SHAPE)?;
            let answer = number_or_null(answer).ok_or(SHAPE)?;
            let what = touching(what, args)?;
            Ok(Act::Touch { key, what, answer })
        }
        _ => Err(SHAPE),
    }
}

/// A place and a value.
fn place_and_value(value: &Value) -> Option<(Place, u64)>
    ensures { result ≡ place_and_value_in (option_and_then two_in (list_of_data (view value.now))) }
{
    match list_of(value)? {
        [place, value] => Some((place_in(place)?, number_of(value)?)),
        _ => None,
    }
}

fn read(value: &Value) -> Option<Act>
    ensures { result ≡ option_map read_of (place_and_value_in (option_and_then two_in (list_of_data (view value.now)))) }
{
    let (place, value) = place_and_value(value)?;
    Some(Act::Read { place, value })
}

fn put(value: &Value) -> Option<Act>
    ensures { result ≡ option_and_then put_of (place_and_value_in (option_and_then two_in (list_of_data (view value.now)))) }
{
    let (place, value) = place_and_value(value)?;
    place.is_put().then_some(Act::Put { place, value })
}

/// A write of GICD_CTLR with these enables.
fn ctlr(enables: Option<u64>) -> Result<Act, u8>
    ensures { result ≡ ctlr_of enables }
{
    let enables = enables.ok_or(SHAPE)?;
    if enables > LAST_ENABLES {
        return Err(LIMIT);
    }
    Ok(Act::CtlrBegin {
        enables: enables as u32,
    })
}

/// The offset of the queue, and whether it is stalled.
fn queue_parts(value: &Value) -> Option<(u64, bool)>
    ensures { result ≡ queue_args (option_and_then two_in (list_of_data (view value.now))) }
{
    match list_of(value)? {
        [offset, stalled] => Some((number_of(offset)?, stalled.as_bool()?)),
        _ => None,
    }
}

fn queue(parts: Option<(u64, bool)>) -> Result<Act, u8>
    ensures { result ≡ queue_of parts }
{
    let (offset, stalled) = parts.ok_or(SHAPE)?;
    if offset > u64::from(u32::MAX) {
        return Err(LIMIT);
    }
    Ok(Act::Queue {
        offset: offset as u32,
        stalled,
    })
}

/// What a field says that holds true.
fn by_flag(value: &Value, act: Act) -> Result<Act, u8>
    ensures { result ≡ shaped (true_in act (view value.now)) }
{
    if is_true(value) { Ok(act) } else { Err(SHAPE) }
}

/// The interrupt that a text names.
fn key(value: &Value) -> Result<Key, u8>
    ensures { result ≡ shaped (key_in_data (view value.now)) }
{
    key_in(value).ok_or(SHAPE)
}

/// What happens, by what stands in the field of an actor's event; or the code of what is not said: 1 where a part is missing or of the wrong
/// kind, 2 where a number is outside of its range, 3 where a register's name is none.
pub(crate) fn act(by: Actor, field: ActField, value: &Value) -> Result<Act, u8>
    ensures { result ≡ act_in by field (view value.now) }
{
    Ok(match field {
        ActField::Begins => Act::Begin(call(by, value)?),
        ActField::Ends => Act::End(number_or_null(value).ok_or(SHAPE)?),
        ActField::Reaches => Act::Reach(key(value)?),
        ActField::Takes => Act::Take(key(value)?),
        ActField::Leaves => Act::Leave(key(value)?),
        ActField::Raises => Act::Raise(key(value)?),
        ActField::GoesUp => Act::Up(key(value)?),
        ActField::GoesDown => Act::Down(key(value)?),
        ActField::Accesses => cpu(value)?,
        ActField::Touches => touch(value)?,
        ActField::EnablesLpis => by_flag(value, Act::Enable)?,
        ActField::ReadsPlace => read(value).ok_or(SHAPE)?,
        ActField::PutsPlace => put(value).ok_or(SHAPE)?,
        ActField::BeginsCtlr => ctlr(number_of(value))?,
        ActField::EndsCtlr => by_flag(value, Act::CtlrEnd)?,
        ActField::BeginsIts => by_flag(value, Act::ItsBegin)?,
        ActField::EndsIts => by_flag(value, Act::ItsEnd)?,
        ActField::MovesQueue => queue(queue_parts(value))?,
    })
}
