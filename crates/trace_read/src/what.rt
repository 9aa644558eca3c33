//! How touches of interrupts are called, and what each has as its arguments.
ghost use Rattle.std.specs.Prelude.{◌≡◌, find, map, option_and_then};
ghost use Rattle.std.specs.Str.{bytes_eq};
ghost use Rattle.serde_json.specs.Find.{as_str};
ghost use Rattle.serde_json.specs.View.{view};
ghost use Rattle.scn_read.specs.JsonField.Field.{list_of as list_of_data};
ghost use Rattle.trace_read.specs.Act.{what_name, what_named, read_args, write_args, enables_args, retarget_args, map_of, map_args, configure_of, configure_args, touching_of, touching_said};
ghost use Rattle.trace_read.specs.Part.{one_in, two_in, three_in};
ghost use Rattle.floor_calls.specs.GicCall.Touch.{is_priority as is_priority_of};

use crate::name::narrowed;
use crate::part::{kind_in, number_or_null};
use floor_calls::Touching;
use json_field::{list_of, number_of};
use scn_read::{LIMIT, SHAPE};
use serde_json::Value;

/// The steps in which a priority goes.
const PRIORITY_STEP: u64 = 8;
/// The last priority.
const LAST_PRIORITY: u64 = 248;

/// What is done to the record of an interrupt.
#[derive(Clone, Copy, Debug, PartialEq, Eq)]
pub enum What {
    /// Its part of a register is read: `read`, with `[KIND]`.
    Read,
    /// Its part of a register is written: `write`, with `[KIND,VALUE]`.
    Write,
    /// It gets its copies of GICD_CTLR's enables: `enables`, with two flags.
    Enables,
    /// An LPI is mapped: `map`, with a target, a flag and a priority.
    Map,
    /// An LPI gets a target, or none: `retarget`, with a number or null.
    Retarget,
    /// An LPI gets its configuration: `configure`, with a flag and a priority.
    Configure,
    /// An LPI is discarded: `forget`, with nothing.
    Forget,
}

/// All of them.
const WHATS: [What; 7] = [
    What::Read,
    What::Write,
    What::Enables,
    What::Map,
    What::Retarget,
    What::Configure,
    What::Forget,
];

impl What {
    /// How it is called.
    fn name(self) -> &'static str
        ensures { result.now ≡ what_name self }
    {
        match self {
            What::Read => "read",
            What::Write => "write",
            What::Enables => "enables",
            What::Map => "map",
            What::Retarget => "retarget",
            What::Configure => "configure",
            What::Forget => "forget",
        }
    }

    fn is_called(self, name: &str) -> bool
        ensures { result ≡ bytes_eq name.now (what_name self) }
    {
        name == self.name()
    }

    /// The one of this name. None where none is called so.
    fn named(name: &str) -> Option<What>
        ensures { result ≡ what_named name.now }
    {
        first_called(&WHATS, name)
    }
}

/// The first of these that is called so.
fn first_called(whats: &[What], name: &str) -> Option<What>
    ensures { result ≡ find (λ what. bytes_eq name.now (what_name what)) whats.now }
{
    whats.iter().copied().find(|what| what.is_called(name))
}

fn read_part(args: &[Value]) -> Option<Touching>
    ensures { result ≡ read_args (one_in (map view args.now)) }
{
    match args {
        [kind] => Some(Touching::Read {
            kind: kind_in(kind)?,
        }),
        _ => None,
    }
}

fn write_part(args: &[Value]) -> Option<Touching>
    ensures { result ≡ write_args (two_in (map view args.now)) }
{
    match args {
        [kind, value] => Some(Touching::Register {
            kind: kind_in(kind)?,
            value: number_of(value)?,
        }),
        _ => None,
    }
}

fn copy_enables(args: &[Value]) -> Option<Touching>
    ensures { result ≡ enables_args (two_in (map view args.now)) }
{
    match args {
        [en0, en1] => Some(Touching::Enables {
            en0: en0.as_bool()?,
            en1: en1.as_bool()?,
        }),
        _ => None,
    }
}

/// Whether a number is a priority.
fn is_priority(number: u64) -> bool
    ensures { result ≡ is_priority_of number }
{
    number % PRIORITY_STEP == 0 && number <= LAST_PRIORITY
}

/// The target, the flag and the priority of a map.
fn map_parts(args: &[Value]) -> Option<(u64, bool, u64)>
    ensures { result ≡ map_args (three_in (map view args.now)) }
{
    match args {
        [target, enabled, prio] => {
            Some((number_of(target)?, enabled.as_bool()?, number_of(prio)?))
        }
        _ => None,
    }
}

fn map_lpi(parts: Option<(u64, bool, u64)>) -> Result<Touching, u8>
    ensures { result ≡ map_of parts }
{
    let (target, enabled, prio) = parts.ok_or(SHAPE)?;
    if !is_priority(prio) {
        return Err(LIMIT);
    }
    Ok(Touching::MapLpi {
        target: narrowed(target),
        enabled,
        prio: prio as u8,
    })
}

fn retarget(args: &[Value]) -> Option<Touching>
    ensures { result ≡ retarget_args (one_in (map view args.now)) }
{
    match args {
        [target] => Some(Touching::Retarget {
            target: number_or_null(target)?.map(narrowed),
        }),
        _ => None,
    }
}

/// The flag and the priority of a configuration.
fn configure_parts(args: &[Value]) -> Option<(bool, u64)>
    ensures { result ≡ configure_args (two_in (map view args.now)) }
{
    match args {
        [enabled, prio] => Some((enabled.as_bool()?, number_of(prio)?)),
        _ => None,
    }
}

fn configure(parts: Option<(bool, u64)>) -> Result<Touching, u8>
    ensures { result ≡ configure_of parts }
{
    let (enabled, prio) = parts.ok_or(SHAPE)?;
    if !is_priority(prio) {
        return Err(LIMIT);
    }
    Ok(Touching::Configure {
        enabled,
        prio: prio as u8,
    })
}

/// The touch with these arguments.
fn touching_with(what: What, args: &[Value]) -> Result<Touching, u8>
    ensures { result ≡ touching_of what (map view args.now) }
{
    match what {
        What::Read => read_part(args).ok_or(SHAPE),
        What::Write => write_part(args).ok_or(SHAPE),
        What::Enables => copy_enables(args).ok_or(SHAPE),
        What::Map => map_lpi(map_parts(args)),
        What::Retarget => retarget(args).ok_or(SHAPE),
        What::Configure => configure(configure_parts(args)),
        What::Forget if args.is_empty() => Ok(Touching::Forget),
        What::Forget => Err(SHAPE),
    }
}

/// The touch of this name with the arguments in a list; or the code of what is not said: 1 where there is no such touch, or a part is
/// missing or of the wrong kind; 2 where a priority is none.
pub(crate) fn touching(name: &Value, args: &Value) -> Result<Touching, u8>
    ensures { result ≡ touching_said (option_and_then what_named (as_str (view name.now))) (list_of_data (view args.now)) }
{
    let what = What::named(name.as_str().ok_or(SHAPE)?).ok_or(SHAPE)?;
    touching_with(what, list_of(args).ok_or(SHAPE)?)
}
