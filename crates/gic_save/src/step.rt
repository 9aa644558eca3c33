//! The steps of an image.
ghost use Rattle.std.specs.Prelude.{◌≡◌, IfOk, OnOk, fold};
ghost use Rattle.serde_json.specs.View.{view, members_view};
ghost use Rattle.gic_save.specs.Cell.{with_member};
ghost use Rattle.gic_save.specs.Step.{frame_name as frame_name_of, redist_vcpu as redist_vcpu_of, owner_of, number_if, op_members, event_members, pe_members, step_data};

use crate::cell::Written;
use crate::rows::pair;
use scn_saved::{DeviceOp, Frame, GuestOp, Key, PeOp, Step};
use serde_json::{Map, Value, put};
use std::alloc::{AllocError, Global};

/// The members of an object that is written.
type Members = Map<String, Value>;

/// Adds a number, where there is one.
fn put_if(
    members: &mut Members,
    alloc: Global,
    name: &str,
    number: Option<u64>,
) -> Result<(), AllocError>
    ensures { OnOk result (members_view members.new.entries
        ≡ fold with_member (members_view members.old.entries) (number_if name.now number)) }
{
    match number {
        Some(number) => put(members, alloc, name, Value::from(number)),
        None => Ok(()),
    }
}

/// The name of the field that has the offset of an access.
fn frame_name(frame: Frame) -> &'static str
    ensures { result.now ≡ frame_name_of frame }
{
    match frame {
        Frame::Dist => "gicd",
        Frame::Redist { .. } => "gicr",
        Frame::Its => "gits",
        Frame::Ram => "ram",
    }
}

/// The vCPU whose redistributor is accessed.
fn redist_vcpu(frame: Frame) -> Option<u64>
    ensures { result ≡ redist_vcpu_of frame }
{
    match frame {
        Frame::Redist { vcpu } => Some(u64::from(vcpu)),
        Frame::Dist | Frame::Its | Frame::Ram => None,
    }
}

/// Adds what a vCPU does.
fn put_op(members: &mut Members, alloc: Global, op: &GuestOp) -> Result<(), AllocError>
    ensures { OnOk result (members_view members.new.entries
        ≡ fold with_member (members_view members.old.entries) (op_members op.now)) }
{
    match *op {
        GuestOp::Icc { reg, write } => {
            let name = Value::try_from_str(alloc, reg.name())?;
            put(members, alloc, "icc", name)?;
            put_if(members, alloc, "write", write)
        }
        GuestOp::Mem {
            frame,
            offset,
            size,
            write,
        } => {
            put(members, alloc, frame_name(frame), Value::from(offset))?;
            put_if(members, alloc, "of", redist_vcpu(frame))?;
            put(members, alloc, "size", Value::from(size))?;
            put_if(members, alloc, "write", write)
        }
    }
}

/// The vCPU of a private interrupt.
fn owner(key: Key) -> Option<u64>
    ensures { result ≡ owner_of key }
{
    match key {
        Key::Private { vcpu, .. } => Some(u64::from(vcpu)),
        Key::Spi(_) | Key::Lpi(_) => None,
    }
}

/// Adds what a device does.
fn put_event(members: &mut Members, alloc: Global, op: &DeviceOp) -> Result<(), AllocError>
    ensures { OnOk result (members_view members.new.entries
        ≡ fold with_member (members_view members.old.entries) (event_members op.now)) }
{
    match *op {
        DeviceOp::Message { spi } => put(members, alloc, "message", Value::from(spi)),
        DeviceOp::Wire { key, up } => {
            put(members, alloc, "wire", Value::from(key.intid()))?;
            put(members, alloc, "up", Value::Bool(up))?;
            put_if(members, alloc, "vcpu", owner(key))
        }
        DeviceOp::Msi { device, event } => {
            let numbers = pair(alloc, u64::from(device), u64::from(event))?;
            put(members, alloc, "msi", numbers)
        }
    }
}

/// Adds what is done to a PE.
fn put_pe_op(members: &mut Members, alloc: Global, op: &PeOp) -> Result<(), AllocError>
    ensures { OnOk result (members_view members.new.entries
        ≡ fold with_member (members_view members.old.entries) (pe_members op.now)) }
{
    match *op {
        PeOp::Enter { guest, vcpu } => {
            let name = pair(alloc, u64::from(guest), u64::from(vcpu))?;
            put(members, alloc, "enter", name)
        }
        PeOp::Exit => put(members, alloc, "exit", Value::Bool(true)),
        PeOp::Lrs => put(members, alloc, "lrs", Value::Bool(true)),
    }
}

/// An object with the members of the form in which scenarios have the step.
impl Written for Step {
    ghost written = { step_data };

    fn value(&self, alloc: Global) -> Result<Value, AllocError> {
        let mut members = Members::new(alloc);
        match self {
            Step::Vcpu { guest, vcpu, op } => {
                let name = pair(alloc, u64::from(*guest), u64::from(*vcpu))?;
                put(&mut members, alloc, "vcpu", name)?;
                put_op(&mut members, alloc, op)?;
            }
            Step::Device { guest, device, op } => {
                let name = pair(alloc, u64::from(*guest), u64::from(*device))?;
                put(&mut members, alloc, "dev", name)?;
                put_event(&mut members, alloc, op)?;
            }
            Step::Pe { pe, op } => {
                put(&mut members, alloc, "pe", Value::from(*pe))?;
                put_pe_op(&mut members, alloc, op)?;
            }
        }
        Ok(Value::Object(members))
    }
}
