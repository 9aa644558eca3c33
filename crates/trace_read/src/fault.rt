//! The faults of events that a guest cannot have.
ghost use Rattle.std.specs.Prelude.{◌≡◌};
ghost use Rattle.scn_read.specs.ScnBase.Words.{IsShape, has_interrupt};
ghost use Rattle.scn_read.specs.GicGuest.Good.{is_good_event as is_good_event_of};
ghost use Rattle.trace_read.specs.Call.{op_fault as op_fault_of, call_fault as call_fault_of};
ghost use Rattle.trace_read.specs.Reading.{has_actor as has_actor_of, key_fault as key_fault_of, vcpu_fault as vcpu_fault_of, place_fault as place_fault_of, act_fault as act_fault_of, event_fault as event_fault_of};

use crate::place::Place;
use crate::trace::{Act, TraceCall, TraceEvent};
use floor_calls::{Actor, DeviceOp, GuestOp, GuestShape, Key, SGI_COUNT, key_of};
use gic_guest::{fits, has_frame, is_inside, is_size, is_usable};
use scn_read::{ADDRESS, LIMIT, UNKNOWN_ACTOR, UNKNOWN_REGISTER, first_code};

/// How many bytes a word of the memory has.
const WORD_BYTES: u64 = 8;

/// Whether the guest has an interrupt.
fn is_there(shape: &GuestShape, key: Key) -> bool
    requires { IsShape shape.now }
    ensures { result ≡ has_interrupt shape.now key }
{
    match key {
        Key::Private { vcpu, id } => key_of(id, vcpu, shape) == Some(key),
        Key::Spi(id) | Key::Lpi(id) => key_of(id, 0, shape) == Some(key),
    }
}

/// Whether the guest has what a device's operation is of.
fn is_good_event(shape: &GuestShape, op: DeviceOp) -> bool
    requires { IsShape shape.now }
    ensures { result ≡ is_good_event_of shape.now op }
{
    match op {
        DeviceOp::Message { spi } => is_there(shape, Key::Spi(spi)),
        DeviceOp::Wire { key, .. } => match key {
            Key::Private { id, .. } => id >= SGI_COUNT && is_there(shape, key),
            Key::Spi(_) => is_there(shape, key),
            Key::Lpi(_) => false,
        },
        DeviceOp::Msi { .. } => shape.lpis > 0,
    }
}

/// The code of a vCPU's access that its guest cannot serve.
fn op_fault(shape: &GuestShape, op: GuestOp) -> Option<u8>
    requires { IsShape shape.now }
    ensures { result ≡ op_fault_of shape.now op }
{
    match op {
        GuestOp::Icc { reg, write } => (!is_usable(reg, write)).then_some(UNKNOWN_REGISTER),
        GuestOp::Mem {
            frame,
            offset,
            size,
            write,
        } => {
            if !is_size(size) || !fits(size, write) {
                return Some(LIMIT);
            }
            if !has_frame(shape, frame) {
                return Some(UNKNOWN_ACTOR);
            }
            (!is_inside(shape, frame, offset, size)).then_some(ADDRESS)
        }
    }
}

/// The code of a call that its guest cannot serve.
fn call_fault(shape: &GuestShape, call: TraceCall) -> Option<u8>
    requires { IsShape shape.now }
    ensures { result ≡ call_fault_of shape.now call }
{
    match call {
        TraceCall::Vcpu(op) => op_fault(shape, op),
        TraceCall::Device(op) => (!is_good_event(shape, op)).then_some(UNKNOWN_ACTOR),
        TraceCall::Enter | TraceCall::Exit => None,
    }
}

/// The code of an interrupt that is not there.
fn key_fault(shape: &GuestShape, key: Key) -> Option<u8>
    requires { IsShape shape.now }
    ensures { result ≡ key_fault_of shape.now key }
{
    (!is_there(shape, key)).then_some(UNKNOWN_ACTOR)
}

/// The code of a vCPU that is not there.
fn vcpu_fault(shape: &GuestShape, vcpu: u32) -> Option<u8>
    ensures { result ≡ vcpu_fault_of shape.now vcpu }
{
    (vcpu >= shape.vcpus).then_some(UNKNOWN_ACTOR)
}

/// The code of a place that is not there.
fn place_fault(shape: &GuestShape, place: Place) -> Option<u8>
    ensures { result ≡ place_fault_of shape.now place }
{
    match place {
        Place::Ram(index) => {
            (WORD_BYTES * u64::from(index) >= u64::from(shape.ram)).then_some(ADDRESS)
        }
        Place::Propbaser(vcpu) | Place::Pendbaser(vcpu) | Place::Lpis(vcpu) => {
            vcpu_fault(shape, vcpu)
        }
        Place::ItsCtlr
        | Place::Cbaser
        | Place::Cwriter
        | Place::Baser0
        | Place::Baser1
        | Place::Creadr
        | Place::Ctlr => None,
    }
}

/// The code of something that cannot be of this guest.
fn act_fault(shape: &GuestShape, act: Act) -> Option<u8>
    requires { IsShape shape.now }
    ensures { result ≡ act_fault_of shape.now act }
{
    match act {
        Act::Begin(call) => call_fault(shape, call),
        Act::Reach(key)
        | Act::Take(key)
        | Act::Leave(key)
        | Act::Raise(key)
        | Act::Up(key)
        | Act::Down(key)
        | Act::Touch { key, .. } => key_fault(shape, key),
        Act::Cpu { reg, write, .. } => (!is_usable(reg, write)).then_some(UNKNOWN_REGISTER),
        Act::Read { place, .. } | Act::Put { place, .. } => place_fault(shape, place),
        Act::End(_)
        | Act::Enable
        | Act::CtlrBegin { .. }
        | Act::CtlrEnd
        | Act::ItsBegin
        | Act::ItsEnd
        | Act::Queue { .. } => None,
    }
}

/// Whether the guest has an actor.
fn has_actor(shape: &GuestShape, by: Actor) -> bool
    ensures { result ≡ has_actor_of shape.now by }
{
    match by {
        Actor::Vcpu { vcpu, .. } => vcpu < shape.vcpus,
        Actor::Device { device, .. } => device < shape.devices,
    }
}

/// The least code of the faults of an event that can be said; none where it has none.
pub(crate) fn event_fault(event: &TraceEvent, shape: &GuestShape) -> Option<u8>
    requires { IsShape shape.now }
    ensures { result ≡ event_fault_of shape.now event.now }
{
    let of_actor = (!has_actor(shape, event.by)).then_some(UNKNOWN_ACTOR);
    first_code(of_actor, act_fault(shape, event.act))
}
