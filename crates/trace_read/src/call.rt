//! What an actor calls for.
ghost use Rattle.std.specs.Prelude.{◌≡◌, map, option_and_then};
ghost use Rattle.serde_json.specs.View.{view};
ghost use Rattle.serde_json.specs.Find.{get};
ghost use Rattle.scn_read.specs.ScnBase.Words.{Frame};
ghost use Rattle.scn_read.specs.Narrow.{narrowed_key};
ghost use Rattle.scn_read.specs.Step.{wired_key as wired_key_of};
ghost use Rattle.trace_read.specs.Part.{shaped, true_in};
ghost use Rattle.trace_read.specs.Call.{call_fields as call_fields_of, is_form_of as is_form_of_actor, register_call, access_call, redistributor_call, message_call, wire_call, msi_call, form_call as form_call_of, call_said};

use crate::name::narrowed;
use crate::part::is_true;
use crate::trace::TraceCall;
use floor_calls::{Actor, DeviceOp, Frame, GuestOp, IccReg, Key};
use json_field::{flag_at, has_only, number_at, number_or, pair_at, text_at};
use scn_read::{DEFAULT_SIZE, Form, LIMIT, SHAPE, UNKNOWN_REGISTER};
use serde_json::Value;

const ICC: &str = "icc";

const GICD: &str = "gicd";

const GICR: &str = "gicr";

const GITS: &str = "gits";

const RAM: &str = "ram";

const MESSAGE: &str = "message";

const WIRE: &str = "wire";

const MSI: &str = "msi";

const ENTER: &str = "enter";

const EXIT: &str = "exit";

const WRITE: &str = "write";

const SIZE: &str = "size";

const OF: &str = "of";

const UP: &str = "up";

/// The fields that a form has.
fn call_fields(form: Form) -> &'static [&'static str]
    ensures { map (λ field. field.now) result.now ≡ call_fields_of form }
{
    match form {
        Form::AccessRegister => &[ICC, WRITE],
        Form::AccessDistributor => &[GICD, SIZE, WRITE],
        Form::AccessRedistributor => &[GICR, OF, SIZE, WRITE],
        Form::AccessIts => &[GITS, SIZE, WRITE],
        Form::AccessMemory => &[RAM, SIZE, WRITE],
        Form::SendMessage => &[MESSAGE],
        Form::MoveWire => &[WIRE, UP, OF],
        Form::SendMsi => &[MSI],
        Form::EnterPe => &[ENTER],
        Form::ExitPe => &[EXIT],
        Form::ShowPe => &[],
    }
}

/// Whether a form is of the actor's kind: of a device, or of a vCPU.
fn is_form_of(by: Actor, form: Form) -> bool
    ensures { result ≡ is_form_of_actor by form }
{
    let is_of_device = matches!(form, Form::SendMessage | Form::MoveWire | Form::SendMsi);
    match by {
        Actor::Vcpu { .. } => !is_of_device,
        Actor::Device { .. } => is_of_device,
    }
}

/// An access of a register of the CPU interface.
fn register(value: &Value) -> Result<TraceCall, u8>
    ensures { result ≡ register_call (view value.now) }
{
    let name = text_at(value, ICC).ok_or(SHAPE)?;
    number_or(value, WRITE, 0).ok_or(SHAPE)?;
    let reg = IccReg::named(name).ok_or(UNKNOWN_REGISTER)?;
    let write = number_at(value, WRITE);
    Ok(TraceCall::Vcpu(GuestOp::Icc { reg, write }))
}

/// An access of a frame at the offset in the field of this name.
fn access(value: &Value, name: &str, frame: Frame) -> Option<TraceCall>
    ensures { result ≡ access_call name.now frame (view value.now) }
{
    let offset = number_at(value, name)?;
    let size = number_or(value, SIZE, DEFAULT_SIZE)?;
    number_or(value, WRITE, 0)?;
    Some(TraceCall::Vcpu(GuestOp::Mem {
        frame,
        offset: narrowed(offset),
        size: narrowed(size),
        write: number_at(value, WRITE),
    }))
}

/// An access of the redistributor of a vCPU.
fn redistributor(value: &Value) -> Option<TraceCall>
    ensures { result ≡ redistributor_call (view value.now) }
{
    let vcpu = narrowed(number_at(value, OF)?);
    access(value, GICR, Frame::Redist { vcpu })
}

/// A message to an SPI.
fn message(value: &Value) -> Option<TraceCall>
    ensures { result ≡ message_call (view value.now) }
{
    let spi = narrowed(number_at(value, MESSAGE)?);
    Some(TraceCall::Device(DeviceOp::Message { spi }))
}

/// The interrupt whose wire is moved: a private one of a vCPU, where one is named, or else a shared one.
fn wired_key(vcpu: Option<u64>, id: u64) -> Key
    ensures { result ≡ narrowed_key (wired_key_of vcpu id) }
{
    let id = narrowed(id);
    match vcpu {
        Some(vcpu) => Key::Private {
            vcpu: narrowed(vcpu),
            id,
        },
        None => Key::Spi(id),
    }
}

/// A move of a wire.
fn wire(value: &Value) -> Option<TraceCall>
    ensures { result ≡ wire_call (view value.now) }
{
    let id = number_at(value, WIRE)?;
    let up = flag_at(value, UP)?;
    number_or(value, OF, 0)?;
    let key = wired_key(number_at(value, OF), id);
    Some(TraceCall::Device(DeviceOp::Wire { key, up }))
}

/// A message-signalled interrupt.
fn msi(numbers: Option<(u64, u64)>) -> Result<TraceCall, u8>
    ensures { result ≡ msi_call numbers }
{
    let (number, event) = numbers.ok_or(SHAPE)?;
    if number > u64::from(u32::MAX) || event > u64::from(u32::MAX) {
        return Err(LIMIT);
    }
    Ok(TraceCall::Device(DeviceOp::Msi {
        device: number as u32,
        event: event as u32,
    }))
}

/// A call that is said by a field that holds true.
fn by_flag(value: &Value, name: &str, call: TraceCall) -> Option<TraceCall>
    ensures { result ≡ option_and_then (true_in call) (get name.now (view value.now)) }
{
    is_true(value.get(name)?).then_some(call)
}

/// What is called for in a form.
fn form_call(form: Form, value: &Value) -> Result<TraceCall, u8>
    ensures { result ≡ form_call_of form (view value.now) }
{
    match form {
        Form::AccessRegister => register(value),
        Form::AccessDistributor => access(value, GICD, Frame::Dist).ok_or(SHAPE),
        Form::AccessRedistributor => redistributor(value).ok_or(SHAPE),
        Form::AccessIts => access(value, GITS, Frame::Its).ok_or(SHAPE),
        Form::AccessMemory => access(value, RAM, Frame::Ram).ok_or(SHAPE),
        Form::SendMessage => message(value).ok_or(SHAPE),
        Form::MoveWire => wire(value).ok_or(SHAPE),
        Form::SendMsi => msi(pair_at(value, MSI)),
        Form::EnterPe => by_flag(value, ENTER, TraceCall::Enter).ok_or(SHAPE),
        Form::ExitPe => by_flag(value, EXIT, TraceCall::Exit).ok_or(SHAPE),
        Form::ShowPe => Err(SHAPE),
    }
}

/// What an actor calls for, in a form of its own kind with only its own fields; or the code of what is not said: 1 where a
/// field is missing, unknown or of the wrong kind, 2 where a number of an MSI has more than 32 bits, 3 where a register's name is none.
pub(crate) fn call(by: Actor, value: &Value) -> Result<TraceCall, u8>
    ensures { result ≡ call_said by (view value.now) }
{
    let form = Form::of(value).ok_or(SHAPE)?;
    if !is_form_of(by, form) || !has_only(value, call_fields(form)) {
        return Err(SHAPE);
    }
    form_call(form, value)
}
