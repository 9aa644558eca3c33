//! Messages through their translation lines: what fills a line, and what takes a message out of it.

use crate::acts::Act::{self, Fill, Lpi, Post, Queue, Write};
use crate::acts::{FOUR_TAKEN, TAKE_FOUR, end_after};
use crate::guest::{LATCHED, LpiState, MAPPED, NOTHING};
use gic_msi::MsiMiss;
use port_rest::{DEVICE_ID, DISCARD, EVENT_ID};
use port_seq::{Command, Frame};
use std::test::Fail;

/// The word of a line that has no message and no device.
const EMPTY: u64 = 0;

/// The word of a line with event 3 of device 8, which is LPI 8195: the LPI less 8192 is at [17:5], the event at [33:18] and the
/// device at [49:34], and bit 4 says that there is a message.
const FILLED: u64 = (8 << 34) + (3 << 18) + (3 << 5) + (1 << 4);

/// The message, through its line: it goes so, or the line is empty.
const POSTED: Act = Post(DEVICE_ID, EVENT_ID, Ok(()));

const MISSED: Act = Post(DEVICE_ID, EVENT_ID, Err(MsiMiss::NoLine { found: EMPTY }));

/// The message by the ITS, which fills its line.
const FILL: Act = Fill(DEVICE_ID, EVENT_ID);

/// An event of the device that has the message's line: 31 * 8 + 3 = 251 and 31 * 8 + 67 = 315 are both 59 beside a multiple of 64.
const NEIGHBOUR: u32 = 67;

/// MAPD of the device with 7 bits of EventID.
const WIDE_MAPD: Command = Command::Mapd {
    device: DEVICE_ID,
    size: 6,
    itt_addr: 0x20,
    valid: true,
};

#[test]
fn lines_are_filled_and_emptied(rt: HostRuntime) -> Result<(), Fail> {
    let rows: [(&[Act], LpiState); 3] = [
        // It is filled by the ITS alone, and a DISCARD of its event empties it.
        (
            &[
                TAKE_FOUR,
                FOUR_TAKEN,
                MISSED,
                Lpi(MAPPED),
                FILL,
                Lpi(LATCHED),
                POSTED,
                Lpi(LATCHED),
                Queue(4, DISCARD),
                Write(Frame::Its, 0x88, 8, 0xA0),
                Lpi(NOTHING),
                MISSED,
            ],
            NOTHING,
        ),
        // Another message of the line is none of it, and leaves it as it is.
        (
            &[
                Queue(0, WIDE_MAPD),
                TAKE_FOUR,
                FOUR_TAKEN,
                FILL,
                Post(DEVICE_ID, NEIGHBOUR, Err(MsiMiss::NoLine { found: FILLED })),
                POSTED,
            ],
            LATCHED,
        ),
        // An ITS that is disabled translates nothing.
        (
            &[
                TAKE_FOUR,
                FOUR_TAKEN,
                FILL,
                Write(Frame::Its, 0x0, 4, 0),
                MISSED,
            ],
            LATCHED,
        ),
    ];
    for (acts, lpi) in rows {
        assert_eq!(rt; end_after(&rt, rt.alloc(), &[], acts)?, Some((0, lpi)));
    }
    Ok(())
}
