//! The ITS as a driver sees it: an LPI from its tables to a message, a queue that stalls, and what each register reads.

use crate::acts::Act::{self, Queue, Read, Write};
use crate::acts::{BARE, End, FOUR_TAKEN, SECOND, SENT, TABLES, TAKE_FOUR, end_after, other};
use crate::guest::{
    LATCHED, LpiState, MAPPED, MOVED, NO_COMMAND, NOTHING, SECOND_PLACE, SHAPE, map_event,
};
use Frame::{Its, Ram};
use port_rest::{CLEAR, DEVICE_ID, DISCARD, EVENT_ID, INV, LPI, MAPC, MOVI, OTHER_MAPC, SYNC};
use port_seq::Frame;
use std::test::Fail;

/// The number of no command, in place of that of the second.
const UNKNOWN: Act = Write(Ram, SECOND_PLACE, 8, NO_COMMAND);

#[test]
fn an_lpi_is_set_up(rt: HostRuntime) -> Result<(), Fail> {
    let rows: [(&[Act], LpiState); 4] = [
        (&[TAKE_FOUR, FOUR_TAKEN, SENT], LATCHED),
        // Bit 1 of a configuration byte is ignored.
        (
            &[Write(Ram, 0x3003, 1, 0xA3), TAKE_FOUR, FOUR_TAKEN, SENT],
            LATCHED,
        ),
        // Its new priority is that of its configuration byte only from INV on.
        (
            &[TAKE_FOUR, FOUR_TAKEN, Write(Ram, 0x3003, 1, 0x41), SENT],
            LATCHED,
        ),
        (
            &[
                TAKE_FOUR,
                FOUR_TAKEN,
                Write(Ram, 0x3003, 1, 0x41),
                Queue(4, INV),
                Queue(5, SYNC),
                Write(Its, 0x88, 8, 0xC0),
                Read(Its, 0x90, 8, 0xC0),
                SENT,
            ],
            (true, 0x40, true, Some(1)),
        ),
    ];
    for (acts, lpi) in rows {
        assert_eq!(rt; end_after(&rt, rt.alloc(), &[], acts)?, Some((0, lpi)));
    }
    Ok(())
}

#[test]
fn a_queue_stalls(rt: HostRuntime) -> Result<(), Fail> {
    let beyond = map_event(DEVICE_ID, 32, LPI, 1);
    let last = map_event(DEVICE_ID, 31, LPI, 1);
    let rows: [(&[Act], End); 4] = [
        // An unknown command, and Retry once it is a good one.
        (
            &[UNKNOWN, TAKE_FOUR, Read(Its, 0x90, 8, 0x21)],
            (10, NOTHING),
        ),
        (
            &[
                UNKNOWN,
                TAKE_FOUR,
                Read(Its, 0x90, 4, 0x21),
                Queue(1, MAPC),
                Write(Its, 0x88, 8, 0x81),
                FOUR_TAKEN,
                Read(Its, 0x88, 8, 0x80),
            ],
            (0, MAPPED),
        ),
        // Event 32 of a device with 5 bits, and event 31.
        (
            &[Queue(2, beyond), TAKE_FOUR, Read(Its, 0x90, 8, 0x41)],
            (4, NOTHING),
        ),
        (&[Queue(2, last), TAKE_FOUR, FOUR_TAKEN], (0, MAPPED)),
    ];
    for (acts, end) in rows {
        assert_eq!(rt; end_after(&rt, rt.alloc(), &[], acts)?, Some(end));
    }
    Ok(())
}

#[test]
fn a_pending_lpi_moves(rt: HostRuntime) -> Result<(), Fail> {
    let rows: [(&[Act], LpiState); 3] = [
        // MAPC of ICID 2 to vCPU 0, and MOVI.
        (
            &[
                TAKE_FOUR,
                FOUR_TAKEN,
                SENT,
                Queue(4, OTHER_MAPC),
                Queue(5, MOVI),
                Write(Its, 0x88, 8, 0xC0),
            ],
            MOVED,
        ),
        // CLEAR.
        (
            &[
                TAKE_FOUR,
                FOUR_TAKEN,
                SENT,
                Queue(4, CLEAR),
                Write(Its, 0x88, 8, 0xA0),
            ],
            MAPPED,
        ),
        // DISCARD, after which a message is none of the LPI.
        (
            &[
                TAKE_FOUR,
                FOUR_TAKEN,
                SENT,
                Queue(4, DISCARD),
                Write(Its, 0x88, 8, 0xA0),
                SENT,
            ],
            NOTHING,
        ),
    ];
    for (acts, lpi) in rows {
        let end = end_after(&rt, rt.alloc(), TABLES.as_slice(), acts)?;
        assert_eq!(rt; end, Some((0, lpi)));
    }
    Ok(())
}

/// What the registers of a guest with LPIs read, from its opening on.
const READS: [Act; 34] = [
    Read(SECOND, 0x8, 8, 0x0000_0001_0000_0111),
    // As the guest opens.
    Read(Its, 0x0, 4, 0x8000_0000),
    Read(Its, 0x4, 4, 0),
    Read(Its, 0x8, 8, 0x1_EF71),
    Read(Its, 0x8, 4, 0x1_EF71),
    Read(Its, 0xC, 4, 0),
    Read(Its, 0x80, 8, 0),
    Read(Its, 0x90, 8, 0),
    Read(Its, 0x100, 8, 0x0107_0000_0000_0000),
    Read(Its, 0x108, 8, 0x0407_0000_0000_0000),
    Read(Its, 0x10C, 4, 0x0407_0000),
    Read(Its, 0xFFE8, 4, 0x30),
    // What is stored.
    Write(Its, 0x80, 8, 0x8000_0000_0000_1000),
    Read(Its, 0x84, 4, 0x8000_0000),
    Read(Its, 0x80, 4, 0x1000),
    Write(Its, 0x88, 8, 0x80),
    Read(Its, 0x88, 8, 0x80),
    Write(Its, 0x108, 8, 0x8000_0000_0000_2000),
    Read(Its, 0x108, 8, 0x8407_0000_0000_2000),
    // What is not written.
    Write(Its, 0x90, 8, 0x40),
    Read(Its, 0x90, 8, 0),
    Write(Its, 0x8, 8, 0),
    Read(Its, 0x8, 8, 0x1_EF71),
    // What is not there: further tables, the register of messages, and sizes that no register takes.
    Write(Its, 0x110, 8, 0xFFFF_FFFF_FFFF_FFFF),
    Read(Its, 0x110, 8, 0),
    Read(Its, 0x10040, 4, 0),
    Read(Its, 0x0, 8, 0),
    Read(Its, 0x8, 2, 0),
    Read(Its, 0x84, 8, 0),
    // Enabled: no longer quiescent.
    Write(Its, 0x80, 8, 0),
    Write(Its, 0x0, 4, 1),
    Read(Its, 0x0, 4, 1),
    Write(Its, 0x0, 4, 0),
    Read(Its, 0x0, 4, 0x8000_0000),
];

#[test]
fn registers_read(rt: HostRuntime) -> Result<(), Fail> {
    assert_eq!(rt; other(&rt, rt.alloc(), SHAPE, READS.as_slice())?, None);
    Ok(())
}

/// What they read in a guest without LPIs, which has no ITS.
const BARE_READS: [Act; 11] = [
    Read(Its, 0x0, 4, 0),
    Read(Its, 0x8, 8, 0),
    Read(Its, 0x100, 8, 0),
    Read(Its, 0xFFE8, 4, 0),
    Write(Its, 0x0, 4, 1),
    Write(Its, 0x80, 8, 0x8000_0000_0000_1000),
    Write(Its, 0x88, 8, 0x80),
    Read(Its, 0x0, 4, 0),
    Read(Its, 0x80, 8, 0),
    Read(Its, 0x88, 8, 0),
    Read(Its, 0x90, 8, 0),
];

#[test]
fn no_its_is_there(rt: HostRuntime) -> Result<(), Fail> {
    assert_eq!(rt; other(&rt, rt.alloc(), BARE, BARE_READS.as_slice())?, None);
    Ok(())
}
