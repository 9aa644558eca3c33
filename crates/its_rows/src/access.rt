//! Accesses that a vCPU can make, and its stores of commands.
ghost use Rattle.std.specs.Prelude.{IsTrue};
ghost use Rattle.port_seq.specs.Registers.{is_size};
ghost use Rattle.gic_msi.specs.Calls.{fits as fits_in, has_frame};
ghost use Rattle.pe_op.specs.PeMem.Call.{CanAccess};

use crate::guest::address_of_place;
use gic_msi::{GuestOp, Port};
use pe_op::memory_op;
use port_rest::{command_words, is_off};
use port_seq::{Command, Frame, GuestShape, is_good_op};
use std::sync::Wait;

/// The actor is a vCPU that can make an access.
pub(crate) fn can_access<P: Port>(port: &P) -> bool
    ensures { IsTrue result → CanAccess (P.seen port.now) }
{
    port.actor() < port.shape().vcpus && is_off(port.local_ref())
}

/// A vCPU of a guest of this shape can make an access: a read of so many bytes at an offset in a frame, or a write of a value.
pub(crate) fn is_good_access(
    shape: &GuestShape,
    frame: Frame,
    offset: u32,
    size: u32,
    write: Option<u64>,
) -> bool
    ensures there { IsTrue result → IsTrue (has_frame shape.now frame) }
    ensures size { IsTrue result → IsTrue (is_size size) }
    ensures fits { IsTrue result → IsTrue (fits_in size write) }
{
    let op = GuestOp::Mem {
        frame,
        offset,
        size,
        write,
    };
    shape.is_in_range() && is_good_op(shape, &op)
}

/// Stores eight bytes of memory. Whether the actor may.
pub(crate) fn store<P: Port, R: Wait>(rt: &R, port: &mut P, address: u32, value: u64) -> bool {
    if !can_access(port) {
        return false;
    }
    memory_op(rt, port, address, 8, Some(value));
    true
}

/// Stores a command at its place in the queue, doubleword by doubleword. Whether the actor may.
pub(crate) fn store_command<P: Port, R: Wait>(
    rt: &R,
    port: &mut P,
    place: u16,
    command: &Command,
) -> bool {
    let Some(words) = command_words(command) else {
        return false;
    };
    let address = address_of_place(place);
    for i in 0..4 {
        if !store(rt, port, address + 8 * i as u32, words[i]) {
            return false;
        }
    }
    true
}
