//! The steps of a scenario.
ghost use Rattle.std.specs.Prelude.{◌≡◌};
ghost use Rattle.serde_json.specs.View.{view};
ghost use Rattle.scn_base.specs.Words.{Frame, PeOp};
ghost use Rattle.scn_base.specs.Standing.{IsStanding};
ghost use Rattle.scn_read.specs.Narrow.{narrowed_said, narrowed_key, narrowed_frame, narrowed_pe_op};
ghost use Rattle.scn_read.specs.Step.{register_said, access_said, redistributor_said, message_said, wired_key as wired_key_of, wire_said, msi_said, enter_said, pe_said, form_said, step_said, step_of};

use crate::defaults::DEFAULT_SIZE;
use crate::form::{
    DEV, ENTER, EXIT, Form, GICD, GICR, GITS, ICC, LRS, MESSAGE, MSI, OF, PE, RAM, SIZE, UP, VCPU,
    WIRE, WRITE,
};
use crate::narrow::narrowed;
use json_field::{flag_at, has_only, number_at, number_or, pair_at, text_at};
use scn_base::{
    DeviceOp, Frame, GuestOp, IccReg, Key, LIMIT, Mode, PeOp, SHAPE, Standing, Step,
    UNKNOWN_REGISTER,
};
use serde_json::Value;

/// What a step says that reads or writes a register of the CPU interface.
fn register(value: &Value) -> Result<Step, u8>
    ensures { result ≡ narrowed_said (register_said (view value.now)) }
{
    let (guest, vcpu) = pair_at(value, VCPU).ok_or(SHAPE)?;
    let name = text_at(value, ICC).ok_or(SHAPE)?;
    number_or(value, WRITE, 0).ok_or(SHAPE)?;
    let reg = IccReg::named(name).ok_or(UNKNOWN_REGISTER)?;
    Ok(Step::Vcpu {
        guest: narrowed(guest),
        vcpu: narrowed(vcpu),
        op: GuestOp::Icc {
            reg,
            write: number_at(value, WRITE),
        },
    })
}

/// What a step says that reads or writes a frame at the offset in the field of this name.
fn access(value: &Value, name: &str, frame: Frame) -> Result<Step, u8>
    ensures { (whole : Frame) → frame ≡ narrowed_frame whole →
        result ≡ narrowed_said (access_said name.now whole (view value.now)) }
{
    let (guest, vcpu) = pair_at(value, VCPU).ok_or(SHAPE)?;
    let offset = number_at(value, name).ok_or(SHAPE)?;
    let size = number_or(value, SIZE, DEFAULT_SIZE).ok_or(SHAPE)?;
    number_or(value, WRITE, 0).ok_or(SHAPE)?;
    Ok(Step::Vcpu {
        guest: narrowed(guest),
        vcpu: narrowed(vcpu),
        op: GuestOp::Mem {
            frame,
            offset: narrowed(offset),
            size: narrowed(size),
            write: number_at(value, WRITE),
        },
    })
}

/// What a step says that reads or writes the redistributor of a vCPU.
fn redistributor(value: &Value) -> Result<Step, u8>
    ensures { result ≡ narrowed_said (redistributor_said (view value.now)) }
{
    let vcpu = narrowed(number_at(value, OF).ok_or(SHAPE)?);
    access(value, GICR, Frame::Redist { vcpu })
}

/// What a message to an SPI says.
fn message(value: &Value) -> Result<Step, u8>
    ensures { result ≡ narrowed_said (message_said (view value.now)) }
{
    let (guest, device) = pair_at(value, DEV).ok_or(SHAPE)?;
    let spi = number_at(value, MESSAGE).ok_or(SHAPE)?;
    Ok(Step::Device {
        guest: narrowed(guest),
        device: narrowed(device),
        op: DeviceOp::Message { spi: narrowed(spi) },
    })
}

/// The interrupt whose wire is moved: a private one of a vCPU, where one is named, or else a shared one.
fn wired_key(vcpu: Option<u64>, id: u64) -> Key
    ensures { result ≡ narrowed_key (wired_key_of vcpu id) }
{
    let id = narrowed(id);
    match vcpu {
        Some(vcpu) => Key::Private {
            vcpu: narrowed(vcpu),
            id,
        },
        None => Key::Spi(id),
    }
}

/// What a step says that moves a wire.
fn wire(value: &Value) -> Result<Step, u8>
    ensures { result ≡ narrowed_said (wire_said (view value.now)) }
{
    let (guest, device) = pair_at(value, DEV).ok_or(SHAPE)?;
    let id = number_at(value, WIRE).ok_or(SHAPE)?;
    let up = flag_at(value, UP).ok_or(SHAPE)?;
    number_or(value, VCPU, 0).ok_or(SHAPE)?;
    Ok(Step::Device {
        guest: narrowed(guest),
        device: narrowed(device),
        op: DeviceOp::Wire {
            key: wired_key(number_at(value, VCPU), id),
            up,
        },
    })
}

/// What an MSI says.
fn msi(value: &Value) -> Result<Step, u8>
    ensures { result ≡ narrowed_said (msi_said (view value.now)) }
{
    let (guest, device) = pair_at(value, DEV).ok_or(SHAPE)?;
    let (number, event) = pair_at(value, MSI).ok_or(SHAPE)?;
    if number > u64::from(u32::MAX) || event > u64::from(u32::MAX) {
        return Err(LIMIT);
    }
    Ok(Step::Device {
        guest: narrowed(guest),
        device: narrowed(device),
        op: DeviceOp::Msi {
            device: number as u32,
            event: event as u32,
        },
    })
}

/// What a step says by which a vCPU enters a PE.
fn enter(value: &Value) -> Result<Step, u8>
    ensures { result ≡ narrowed_said (enter_said (view value.now)) }
{
    let pe = number_at(value, PE).ok_or(SHAPE)?;
    let (guest, vcpu) = pair_at(value, ENTER).ok_or(SHAPE)?;
    Ok(Step::Pe {
        pe: narrowed(pe),
        op: PeOp::Enter {
            guest: narrowed(guest),
            vcpu: narrowed(vcpu),
        },
    })
}

/// What a step says that does something to a PE where the field of this name is true.
fn pe_step(value: &Value, name: &str, op: PeOp) -> Result<Step, u8>
    ensures { (whole : PeOp) → op ≡ narrowed_pe_op whole →
        result ≡ narrowed_said (pe_said name.now whole (view value.now)) }
{
    let pe = number_at(value, PE).ok_or(SHAPE)?;
    if flag_at(value, name) != Some(true) {
        return Err(SHAPE);
    }
    Ok(Step::Pe {
        pe: narrowed(pe),
        op,
    })
}

/// What a step of a form says.
fn form_step(value: &Value, form: Form) -> Result<Step, u8>
    ensures { result ≡ narrowed_said (form_said form (view value.now)) }
{
    match form {
        Form::AccessRegister => register(value),
        Form::AccessDistributor => access(value, GICD, Frame::Dist),
        Form::AccessRedistributor => redistributor(value),
        Form::AccessIts => access(value, GITS, Frame::Its),
        Form::AccessMemory => access(value, RAM, Frame::Ram),
        Form::SendMessage => message(value),
        Form::MoveWire => wire(value),
        Form::SendMsi => msi(value),
        Form::EnterPe => enter(value),
        Form::ExitPe => pe_step(value, EXIT, PeOp::Exit),
        Form::ShowPe => pe_step(value, LRS, PeOp::Lrs),
    }
}

/// What a step says, which has only the fields of its form.
fn said(value: &Value) -> Result<Step, u8>
    ensures { result ≡ narrowed_said (step_said (view value.now)) }
{
    let form = Form::of(value).ok_or(SHAPE)?;
    if !has_only(value, form.row().fields) {
        return Err(SHAPE);
    }
    form_step(value, form)
}

/// What a step says, or the code of its fault; it is judged by the standing before it.
pub(crate) fn step(value: &Value, mode: Mode, standing: &Standing) -> Result<Step, u8>
    requires { IsStanding standing.now }
    ensures { result ≡ step_of mode standing.now (view value.now) }
{
    let step = said(value)?;
    match standing.fault_of(mode, &step) {
        Some(code) => Err(code),
        None => Ok(step),
    }
}
