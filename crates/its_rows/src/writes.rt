//! The ITS's registers written one after the other, with commands in a guest's queue, and what they leave.
ghost use Rattle.std.specs.Prelude.{◌≡◌, IsTrue, Some, true};
ghost use Rattle.port_seq.specs.GicImap.Map.{decoded};
ghost use Rattle.gic_msi.specs.Calls.{takes_turn};

use crate::access::{can_access, is_good_access, store, store_command};
use crate::guest::{
    CBASER, CONFIG, LpiState, MAPPED, MOVED, NO_COMMAND, NOTHING, PROPBASER, SECOND_PLACE, SHAPE,
    TABLE, lpi_state, open_guest, queue_state,
};
use gic_msi::{Port, put_plain, read_plain};
use pe_op::its_write;
use port_rest::{INT, MAPC, MAPD, MAPTI, MOVI, OTHER_MAPC, SYNC};
use port_seq::{Command, Frame, GuestShape, PlainWord, Reg, RegRef, decode};
use std::alloc::{AllocError, Global};
use std::sync::Wait;
use std::test::Fail;

/// A write: of eight bytes of memory at an address, of a command at its place in the queue, or of a register of the ITS at an
/// offset, of so many bytes.
#[derive(Clone, Copy)]
enum Write {
    Memory(u32, u64),
    Queue(u16, Command),
    Its(u32, u32, u64),
}

/// GITS_CBASER, GITS_CWRITER and GITS_BASER0 as they are stored, the queue's word as GITS_CREADR has it, and the number of the
/// fault: 0 where the queue is not stalled.
type Registers = (u64, u64, u64, u64, u64);

/// The configuration byte of the LPI, the commands that map it, and the queue, with which the ITS is enabled.
const SET_UP: [Write; 7] = [
    Write::Memory(TABLE, CONFIG),
    Write::Queue(0, MAPD),
    Write::Queue(1, MAPC),
    Write::Queue(2, MAPTI),
    Write::Queue(3, SYNC),
    Write::Its(0x80, 8, CBASER),
    Write::Its(0x0, 4, 1),
];

/// GITS_CWRITER behind these commands.
const TAKE_FOUR: Write = Write::Its(0x88, 8, 0x80);

/// The number of no command, in place of that of the second.
const UNKNOWN: Write = Write::Memory(SECOND_PLACE, NO_COMMAND);

/// A write of the register at an offset takes the ITS.
fn is_taking(shape: &GuestShape, offset: u32, size: u32, value: u64) -> bool
    ensures { IsTrue result → takes_turn shape.now (decoded offset size) (Some value) ≡ true }
{
    if shape.lpis == 0 {
        return false;
    }
    match decode(offset, size) {
        RegRef::Plain { reg, .. } => matches!(
            reg,
            Reg::Ctlr | Reg::Cbaser | Reg::Cwriter | Reg::Baser0 | Reg::Baser1
        ),
        RegRef::Reserved => false,
    }
}

/// Writes a register of the ITS. None where the actor may not.
pub(crate) fn write_register<P: Port, R: Wait>(
    rt: &R,
    port: &mut P,
    offset: u32,
    size: u32,
    value: u64,
) -> Option<()> {
    let shape = port.shape();
    if !can_access(port) || !is_good_access(&shape, Frame::Its, offset, size, Some(value)) {
        return None;
    }
    if !is_taking(&shape, offset, size, value) {
        return None;
    }
    Some(its_write(rt, port, offset, size, value))
}

/// Makes a write. Whether the actor may.
fn make<P: Port, R: Wait>(rt: &R, port: &mut P, write: Write) -> bool {
    match write {
        Write::Memory(address, value) => store(rt, port, address, value),
        Write::Queue(place, command) => store_command(rt, port, place, &command),
        Write::Its(offset, size, value) => {
            write_register(rt, port, offset, size, value).is_some()
        }
    }
}

/// Makes writes, one after the other. Whether each could be made.
fn make_all<P: Port, R: Wait>(rt: &R, port: &mut P, writes: &[Write]) -> bool {
    for write in writes {
        if !make(rt, port, *write) {
            return false;
        }
    }
    true
}

/// The registers. None where the guest has another shape.
fn registers<P: Port>(port: &mut P) -> Option<Registers> {
    if port.shape() != SHAPE {
        return None;
    }
    let cbaser = read_plain(port, PlainWord::Cbaser);
    let cwriter = read_plain(port, PlainWord::Cwriter);
    let baser = read_plain(port, PlainWord::Baser0);
    let (word, fault) = queue_state(port)?;
    Some((cbaser, cwriter, baser, word, fault))
}

/// The registers, and the LPI, after the set-up's writes and more. None where they can't be made.
fn outcome<P: Port, R: Wait>(
    rt: &R,
    port: &mut P,
    writes: &[Write],
) -> Option<(Registers, LpiState)> {
    if port.shape() != SHAPE {
        return None;
    }
    put_plain(rt, port, PlainWord::Propbaser { vcpu: 0 }, PROPBASER);
    put_plain(rt, port, PlainWord::Propbaser { vcpu: 1 }, PROPBASER);
    if !make_all(rt, port, SET_UP.as_slice()) || !make_all(rt, port, writes) {
        return None;
    }
    Some((registers(port)?, lpi_state(port)?))
}

/// What the writes leave of the registers and of the LPI, on a guest of its own.
fn outcome_of<R: Wait>(
    rt: &R,
    alloc: Global,
    writes: &[Write],
) -> Result<Option<(Registers, LpiState)>, AllocError> {
    match open_guest(alloc, SHAPE)? {
        Some(mut port) => Ok(outcome(rt, &mut port, writes)),
        None => Ok(None),
    }
}

#[test]
fn rows_of_the_queue(rt: HostRuntime) -> Result<(), Fail> {
    use Write::{Its, Queue};

    let rows: [(&[Write], Registers, LpiState); 5] = [
        // The set-up; then INT, MAPC of ICID 2 to vCPU 0, and MOVI.
        (&[TAKE_FOUR], (CBASER, 0x80, 0, 0x80, 0), MAPPED),
        (
            &[
                TAKE_FOUR,
                Queue(4, INT),
                Its(0x88, 8, 0xA0),
                Queue(5, OTHER_MAPC),
                Queue(6, MOVI),
                Its(0x88, 8, 0xE0),
            ],
            (CBASER, 0xE0, 0, 0xE0, 0),
            MOVED,
        ),
        // An unknown command stalls the queue; a write without Retry leaves the stall, and one with it takes the command again.
        (&[UNKNOWN, TAKE_FOUR], (CBASER, 0x80, 0, 0x21, 10), NOTHING),
        (
            &[UNKNOWN, TAKE_FOUR, Queue(1, MAPC), TAKE_FOUR],
            (CBASER, 0x80, 0, 0x21, 10),
            NOTHING,
        ),
        (
            &[UNKNOWN, TAKE_FOUR, Queue(1, MAPC), Its(0x88, 8, 0x81)],
            (CBASER, 0x80, 0, 0x80, 0),
            MAPPED,
        ),
    ];
    for (writes, left, lpi) in rows {
        assert_eq!(rt; outcome_of(&rt, rt.alloc(), writes)?, Some((left, lpi)));
    }
    Ok(())
}

#[test]
fn rows_while_the_its_is_enabled(rt: HostRuntime) -> Result<(), Fail> {
    use Write::{Its, Queue};

    let rows: [(&[Write], Registers, LpiState); 2] = [
        // Out of the queue: neither stored, nor does it end the stall; a high half is a write of the stored offset.
        (
            &[
                UNKNOWN,
                TAKE_FOUR,
                Queue(1, MAPC),
                Its(0x88, 8, 0x1001),
                Its(0x8C, 4, 1),
            ],
            (CBASER, 0x80, 0, 0x21, 10),
            NOTHING,
        ),
        // GITS_CBASER and GITS_BASER0 stay.
        (
            &[TAKE_FOUR, Its(0x80, 8, 0x2000), Its(0x100, 8, 0x1000)],
            (CBASER, 0x80, 0, 0x80, 0),
            MAPPED,
        ),
    ];
    for (writes, left, lpi) in rows {
        assert_eq!(rt; outcome_of(&rt, rt.alloc(), writes)?, Some((left, lpi)));
    }
    Ok(())
}

#[test]
fn rows_while_it_is_not(rt: HostRuntime) -> Result<(), Fail> {
    use Write::Its;

    let rows: [(&[Write], Registers, LpiState); 2] = [
        // Each half of GITS_CBASER starts the queue anew, also one that is stalled.
        (
            &[
                UNKNOWN,
                TAKE_FOUR,
                Its(0x0, 4, 0),
                Its(0x100, 8, 0x1000),
                Its(0x104, 4, 0x8000_0000),
                Its(0x80, 4, 0x2001),
            ],
            (0x8000_0000_0000_2001, 0, 0x8000_0000_0000_1000, 0, 0),
            NOTHING,
        ),
        // Commands that came before the ITS was enabled are taken as it is.
        (
            &[Its(0x0, 4, 0), Its(0x88, 4, 0x80), Its(0x0, 4, 1)],
            (CBASER, 0x80, 0, 0x80, 0),
            MAPPED,
        ),
    ];
    for (writes, left, lpi) in rows {
        assert_eq!(rt; outcome_of(&rt, rt.alloc(), writes)?, Some((left, lpi)));
    }
    Ok(())
}
