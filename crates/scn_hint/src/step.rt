//! With which field of a step something is amiss, by the code of its fault.
ghost use Rattle.std.specs.Prelude.{◌≡◌, option_map};
ghost use Rattle.serde_json.specs.View.{view};
ghost use Rattle.gic_host.specs.ScnRead.ScnBase.GicRam.Access.{is_size as is_size_of};
ghost use Rattle.gic_host.specs.ScnRead.Form.{form_of};
ghost use Rattle.scn_hint.specs.Field.{told};
ghost use Rattle.scn_hint.specs.Hint.{step_in, told_of_step};
ghost use Rattle.scn_hint.specs.Step.{actor_fields, is_among, what_of_step, formless as formless_in, shape_amiss as shape_amiss_in, limit_told as limit_told_in, register_told as register_told_in, has_vcpu as has_vcpu_in, has_device as has_device_in, device_told as device_told_in, actor_told as actor_told_in, loaded_told as loaded_told_in, step_told as step_told_in, step_amiss as step_amiss_in};

use crate::field::{Amiss, What, first_amiss, is_object};
use crate::table::rules_of;
use gic_host::scenarios::{
    DEFAULT_DEVICES, DEFAULT_SIZE, DEFAULT_VCPUS, Form, IccReg, LIMIT, NOT_LOADED, PE_BUSY,
    PE_STEP, SHAPE, UNKNOWN_ACTOR, UNKNOWN_REGISTER, WIRE_LEVEL, elements_at, number_at, number_or,
    pair_at, text_at,
};
use serde_json::Value;

const GUESTS: &str = "guests";

const STEPS: &str = "steps";

const VCPU: &str = "vcpu";

const DEV: &str = "dev";

const PE: &str = "pe";

const ICC: &str = "icc";

const MSI: &str = "msi";

const OF: &str = "of";

const ENTER: &str = "enter";

const WIRE: &str = "wire";

const SIZE: &str = "size";

const WRITE: &str = "write";

/// Whether a field says who acts.
fn is_actor(name: &str) -> bool
    ensures { result ≡ is_among actor_fields name.now }
{
    name == VCPU || name == DEV || name == PE
}

/// What an unknown field is to a step of a form.
fn what_of(form: Form, amiss: Amiss<'_>) -> What
    ensures { result ≡ what_of_step form amiss.entry.field.now amiss.entry.what }
{
    match amiss.what {
        What::Unknown if Form::is_name(amiss.field) => What::SecondForm(form),
        What::Unknown if is_actor(amiss.field) => What::OtherActor(form),
        what => what,
    }
}

/// What is amiss with a step that names no form.
fn formless(value: &Value) -> Amiss<'static>
    ensures { told result ≡ formless_in (view value.now) }
{
    let (field, what) = if value.get(VCPU).is_some() {
        (VCPU, What::NoForm)
    } else if value.get(DEV).is_some() {
        (DEV, What::NoForm)
    } else if value.get(PE).is_some() {
        (PE, What::NoForm)
    } else {
        (VCPU, What::NoActor)
    };
    Amiss { field, what }
}

/// With which field of a step something is amiss that has a fault of shape.
fn shape_amiss(form: Option<Form>, value: &Value) -> Option<Amiss<'_>>
    ensures { option_map told result ≡ shape_amiss_in form (view value.now) }
{
    let Some(form) = form else {
        return is_object(value).then_some(formless(value));
    };
    let amiss = first_amiss(value, form.row().fields, rules_of(form))?;
    Some(Amiss {
        what: what_of(form, amiss),
        ..amiss
    })
}

/// Whether an access has this size, in bytes.
fn is_size(size: u64) -> bool
    ensures { result ≡ is_size_of size }
{
    matches!(size, 1 | 2 | 4 | 8)
}

/// The field of a step with a number that is outside of its range.
fn limit_told(form: Form, value: &Value) -> Amiss<'static>
    ensures { told result ≡ limit_told_in form (view value.now) }
{
    let size = number_or(value, SIZE, DEFAULT_SIZE).unwrap_or(0);
    let (field, what) = match form {
        Form::SendMsi => (MSI, What::TooLarge),
        _ if is_size(size) => (WRITE, What::TooLong { size }),
        _ => (SIZE, What::BadSize { found: size }),
    };
    Amiss { field, what }
}

/// The field of a step that names a register, and what is amiss with that.
fn register_told(value: &Value) -> Amiss<'static>
    ensures { told result ≡ register_told_in (view value.now) }
{
    let reg = match text_at(value, ICC) {
        Some(name) => IccReg::named(name),
        None => None,
    };
    let what = if reg.is_none() {
        What::NoRegister
    } else if number_at(value, WRITE).is_some() {
        What::NotWritable
    } else {
        What::NotReadable
    };
    Amiss { field: ICC, what }
}

/// Whether a scenario has the guest of a number, and that this vCPU.
fn has_vcpu(whole: &Value, pair: (u64, u64)) -> bool
    ensures { result ≡ has_vcpu_in (view whole.now) pair }
{
    match elements_at(whole, GUESTS).get(pair.0 as usize) {
        Some(guest) => pair.1 < number_or(guest, "vcpus", u64::from(DEFAULT_VCPUS)).unwrap_or(0),
        None => false,
    }
}

/// The same of a device.
fn has_device(whole: &Value, pair: (u64, u64)) -> bool
    ensures { result ≡ has_device_in (view whole.now) pair }
{
    match elements_at(whole, GUESTS).get(pair.0 as usize) {
        Some(guest) => pair.1
            < number_or(guest, "devices", u64::from(DEFAULT_DEVICES)).unwrap_or(0),
        None => false,
    }
}

/// The field of a device's step that names what is not there.
fn device_told(form: Form, whole: &Value, value: &Value) -> &'static str
    ensures { result.now ≡ device_told_in form (view whole.now) (view value.now) }
{
    if has_device(whole, pair_at(value, DEV).unwrap_or((0, 0))) {
        form.row().name
    } else {
        DEV
    }
}

/// The field of a step that names what is not there.
fn actor_told(form: Form, whole: &Value, value: &Value) -> &'static str
    ensures { result.now ≡ actor_told_in form (view whole.now) (view value.now) }
{
    match form {
        Form::AccessRedistributor if has_vcpu(whole, pair_at(value, VCPU).unwrap_or((0, 0))) => OF,
        Form::SendMessage | Form::MoveWire | Form::SendMsi => device_told(form, whole, value),
        Form::EnterPe if !has_vcpu(whole, pair_at(value, ENTER).unwrap_or((0, 0))) => ENTER,
        Form::EnterPe | Form::ExitPe | Form::ShowPe => PE,
        _ => VCPU,
    }
}

/// The field of a step that names who is on no PE, or a PE that has no vCPU.
fn loaded_told(form: Form) -> Amiss<'static>
    ensures { told result ≡ loaded_told_in form }
{
    match form {
        Form::ExitPe => Amiss {
            field: PE,
            what: What::NoVcpu,
        },
        _ => Amiss {
            field: VCPU,
            what: What::NotLoaded,
        },
    }
}

/// The field of a step by the code of its fault, which is none of shape.
fn step_told(code: u8, form: Form, whole: &Value, value: &Value) -> Amiss<'static>
    ensures { told result ≡ step_told_in code form (view whole.now) (view value.now) }
{
    let (field, what) = match code {
        LIMIT => return limit_told(form, value),
        UNKNOWN_REGISTER => return register_told(value),
        UNKNOWN_ACTOR => (actor_told(form, whole, value), What::NotThere),
        NOT_LOADED => return loaded_told(form),
        PE_BUSY => (ENTER, What::Busy),
        PE_STEP => (form.row().name, What::NotOnThreads),
        WIRE_LEVEL => (WIRE, What::SameLevel),
        _ => (form.row().name, What::Outside),
    };
    Amiss { field, what }
}

/// With which field of a step something is amiss, by the code of its fault.
fn step_amiss<'v>(
    code: u8,
    form: Option<Form>,
    whole: &Value,
    value: &'v Value,
) -> Option<Amiss<'v>>
    ensures { option_map told result ≡ step_amiss_in code form (view whole.now) (view value.now) }
{
    if code == SHAPE {
        return shape_amiss(form, value);
    }
    Some(step_told(code, form?, whole, value))
}

/// The step of a number, from 1.
pub(crate) fn step_at(value: &Value, number: u32) -> Option<&Value>
    ensures { option_map (λ step. view step.now) result ≡ step_in number (view value.now) }
{
    let index = number.checked_sub(1)? as usize;
    elements_at(value, STEPS).get(index)
}

/// With which field of the step of a number, from 1, something is amiss, by the code of its fault.
pub(crate) fn within(value: &Value, code: u8, number: u32) -> Option<Amiss<'_>>
    ensures { option_map told result ≡ told_of_step code number (view value.now) }
{
    let step = step_at(value, number)?;
    step_amiss(code, Form::of(step), value, step)
}
