//! What vCPU 0 and the device do in the rows, and what comes of it.
ghost use Rattle.std.specs.Prelude.{IsTrue};
ghost use Rattle.gic_msi.specs.DevPort.Device.{CanCall};

use crate::access::{can_access, is_good_access, store_command};
use crate::guest::{
    CBASER, LpiState, PROPBASER, SHAPE, TWO_DEVICES, lpi_state, open_guest, queue_state,
};
use gic_msi::{MsiMiss, Port, msi, msi_fill, post};
use pe_op::{its_op, mem_op};
use port_rest::{DEVICE_ID, EVENT_ID, MAPC, MAPD, MAPTI, SYNC, is_settled};
use port_seq::{Command, Frame, GuestPort, GuestShape};
use std::alloc::{AllocError, Global};
use std::sync::Wait;

/// The guest of the rows without LPIs.
pub(crate) const BARE: GuestShape = GuestShape {
    vcpus: 2,
    spis: 32,
    espis: 0,
    devices: 1,
    lpis: 0,
    ram: 65536,
};

/// The number of the fault of the command that stalls the queue, 0 where none does, and LPI 8195.
pub(crate) type End = (u64, LpiState);

/// The device, as an actor.
const DEVICE: u32 = 2;

/// The DeviceIDs and the EventIDs that a line can have are below this.
const SHORT: u32 = 1 << 16;

/// What vCPU 0 does, or the device.
#[derive(Clone, Copy)]
pub(crate) enum Act {
    /// A read of so many bytes at an offset in a frame, which answers this.
    Read(Frame, u32, u32, u64),
    /// A write of a value.
    Write(Frame, u32, u32, u64),
    /// A write of a command at its place in the queue.
    Queue(u16, Command),
    /// A message of an EventID under a DeviceID.
    Message(u32, u32),
    /// One through its translation line alone, and what comes of it.
    Post(u32, u32, Result<(), MsiMiss>),
    /// One by the ITS, which fills its line.
    Fill(u32, u32),
    /// LPI 8195 is so.
    Lpi(LpiState),
}

use Act::{Fill, Lpi, Message, Post, Queue, Read, Write};
use Frame::{Its, Ram};

/// The redistributors.
pub(crate) const FIRST: Frame = Frame::Redist { vcpu: 0 };

pub(crate) const SECOND: Frame = Frame::Redist { vcpu: 1 };

/// The tables of vCPU 0, and its EnableLPIs.
pub(crate) const TABLES: [Act; 3] = [
    Write(FIRST, 0x70, 8, PROPBASER),
    Write(FIRST, 0x78, 8, 0x4000_0000_0001_0000),
    Write(FIRST, 0x0, 4, 1),
];

/// The configuration byte of LPI 8195, the tables of vCPU 1, the queue, and the commands that map the LPI.
pub(crate) const SET_UP: [Act; 10] = [
    Write(Ram, 0x3003, 1, 0xA1),
    Write(SECOND, 0x70, 8, PROPBASER),
    Write(SECOND, 0x78, 8, 0x4000_0000_0001_0000),
    Write(SECOND, 0x0, 4, 1),
    Write(Its, 0x80, 8, CBASER),
    Write(Its, 0x0, 4, 1),
    Queue(0, MAPD),
    Queue(1, MAPC),
    Queue(2, MAPTI),
    Queue(3, SYNC),
];

/// The message of the LPI.
pub(crate) const SENT: Act = Message(DEVICE_ID, EVENT_ID);

/// GITS_CWRITER behind the commands of the set-up, and GITS_CREADR once they are taken.
pub(crate) const TAKE_FOUR: Act = Write(Its, 0x88, 8, 0x80);

pub(crate) const FOUR_TAKEN: Act = Read(Its, 0x90, 8, 0x80);

/// Makes an access, and answers what it reads. None where it may not.
fn make<P: Port, R: Wait>(
    rt: &R,
    port: &mut P,
    frame: Frame,
    offset: u32,
    size: u32,
    write: Option<u64>,
) -> Option<Option<u64>> {
    if !can_access(port) || !is_good_access(&port.shape(), frame, offset, size, write) {
        return None;
    }
    Some(match frame {
        Frame::Its => its_op(rt, port, offset, size, write),
        _ => mem_op(rt, port, frame, offset, size, write),
    })
}

/// A device may make a call.
fn is_device<P: Port>(port: &P) -> bool
    ensures { IsTrue result → CanCall (P.seen port.now) }
{
    port.actor() >= port.shape().vcpus && is_settled(port.local_ref())
}

/// Sends a message. Whether it may.
fn send<P: Port, R: Wait>(rt: &R, port: &mut P, device: u32, event: u32) -> bool {
    if !is_device(port) {
        return false;
    }
    msi(rt, port, device, event);
    true
}

/// Sends a message through its line. None where it may not, or the line can't have it.
fn send_by_line<P: Port>(port: &mut P, device: u32, event: u32) -> Option<Result<(), MsiMiss>> {
    if !is_device(port) || port.shape().lpis == 0 || device >= SHORT || event >= SHORT {
        return None;
    }
    Some(post(port, device, event))
}

/// Sends a message and fills its line. Whether it may.
pub(crate) fn send_and_fill<P: Port, R: Wait>(
    rt: &R,
    port: &mut P,
    device: u32,
    event: u32,
) -> bool {
    if !is_device(port) {
        return false;
    }
    msi_fill(rt, port, device, event);
    true
}

/// Makes an act over the port of its actor. Whether it goes so.
pub(crate) fn goes_over<P: Port, R: Wait>(rt: &R, port: &mut P, act: Act) -> bool {
    match act {
        Read(frame, offset, size, value) => {
            make(rt, port, frame, offset, size, None) == Some(Some(value))
        }
        Write(frame, offset, size, value) => {
            make(rt, port, frame, offset, size, Some(value)) == Some(None)
        }
        Queue(place, command) => store_command(rt, port, place, &command),
        Message(device, event) => send(rt, port, device, event),
        Post(device, event, result) => send_by_line(port, device, event) == Some(result),
        Fill(device, event) => send_and_fill(rt, port, device, event),
        Lpi(state) => lpi_state(port) == Some(state),
    }
}

/// Makes an act, by vCPU 0 or by the device. Whether it goes so.
fn goes_so<R: Wait>(rt: &R, guest: &mut GuestPort, act: Act) -> bool {
    if ![SHAPE, TWO_DEVICES, BARE].contains(&guest.shape()) {
        return false;
    }
    let is_of_device = matches!(act, Message(..) | Post(..) | Fill(..));
    guest.set_actor(if is_of_device { DEVICE } else { 0 });
    goes_over(rt, guest, act)
}

/// Makes acts, one after the other: the number of the first that goes otherwise, if one does.
pub(crate) fn first_other<R: Wait>(rt: &R, guest: &mut GuestPort, acts: &[Act]) -> Option<usize> {
    for (number, act) in acts.iter().enumerate() {
        if !goes_so(rt, guest, *act) {
            return Some(number);
        }
    }
    None
}

/// The fault of the command that stalls the queue, and LPI 8195.
fn end_of<P: Port>(port: &mut P) -> Option<End> {
    let (_, fault) = queue_state(port)?;
    Some((fault, lpi_state(port)?))
}

/// What there is after some acts, which come after the set-up, and before it others. None where one goes otherwise.
pub(crate) fn end_after<R: Wait>(
    rt: &R,
    alloc: Global,
    before: &[Act],
    acts: &[Act],
) -> Result<Option<End>, AllocError> {
    let Some(mut port) = open_guest(alloc, SHAPE)? else {
        return Ok(None);
    };
    let guest = port.current_mut();
    for part in [before, SET_UP.as_slice(), acts] {
        if first_other(rt, guest, part).is_some() {
            return Ok(None);
        }
    }
    Ok(end_of(guest))
}

/// The number of the first act that goes otherwise in a guest that just opened, if one does.
pub(crate) fn other<R: Wait>(
    rt: &R,
    alloc: Global,
    shape: GuestShape,
    acts: &[Act],
) -> Result<Option<usize>, AllocError> {
    match open_guest(alloc, shape)? {
        Some(mut port) => Ok(first_other(rt, port.current_mut(), acts)),
        None => Ok(Some(acts.len())),
    }
}
