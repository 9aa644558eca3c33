//! Calls that set EnableLPIs and message-signalled interrupts, with what they made and noted, and what that is.
use crate::tests::{BEGUN, DEVICE, ENDED, NO, access, is_good, message, raise, read, touch};
use history_turns::{
    DeviceOp, Event, Found, Frame, GuestShape, Key, Kind, ListOf, Made, Noted, Operation, Place,
    PlainWord, Seen, Touching, are_records, call_begun, call_ended, opening_irq,
};
use std::alloc::{AllocError, Global};
use std::test::Fail;

/// Two vCPUs, a device, the actor 2, LPIs 8192 to 8207, and memory that has their bits of a pending table at 0.
const SHAPE: GuestShape = GuestShape {
    vcpus: 2,
    spis: 32,
    espis: 0,
    devices: 1,
    lpis: 16,
    ram: 2048,
};

/// The same with memory that has none of them.
const SMALL: GuestShape = GuestShape { ram: 64, ..SHAPE };

/// The first LPI, and the word of memory with its bit.
const FIRST: u32 = 8192;

const BITS: PlainWord = PlainWord::Ram { index: 128 };

/// GICR_PENDBASER of vCPU 0.
const TABLE: PlainWord = PlainWord::Pendbaser { vcpu: 0 };

/// PTZ.
const ZEROS: u64 = 1 << 62;

/// Up to five events that a call made.
type Events = [Option<(Event, Found)>; 5];

/// What an actor made of an operation, and what that is with no answer: where the LPI of a number was for vCPU 1 all the time
/// and all others for vCPU 0, where a message signals an LPI, and where it has raised what it signalled.
#[derive(Clone, Copy)]
struct Entry {
    shape: GuestShape,
    actor: u32,
    operation: Operation,
    made: Events,
    other: Option<u32>,
    lpi: Option<u32>,
    signals: bool,
    is: Option<(bool, bool)>,
}

/// What a call noted.
fn noted(alloc: Global, row: &Entry) -> Result<Noted, AllocError> {
    let mut targets = ListOf::new(alloc);
    for number in 0..row.shape.lpis {
        let is_other = row.other == Some(number);
        targets.push(Seen {
            is_own: !is_other,
            is_other,
        })?;
    }
    Ok(Noted {
        signals: row.signals,
        lpi: row.lpi,
        targets,
        done: ListOf::new(alloc),
        commands: ListOf::new(alloc),
    })
}

/// Whether a call can still become one, and whether it is one with this answer; none where this is not told of it.
fn judged(
    alloc: Global,
    row: &Entry,
    answer: Option<u64>,
) -> Result<Option<(bool, bool)>, AllocError> {
    let mut piece = ListOf::new(alloc);
    for one in row.made {
        if let Some((event, found)) = one {
            piece.push(Made { event, found })?;
        }
    }
    let piece = piece.as_slice();
    let shape = &row.shape;
    let operation = &row.operation;
    if !shape.is_in_range() || !is_good(shape, operation) || !are_records(shape, piece) {
        return Ok(None);
    }
    let noted = noted(alloc, row)?;
    let begun = call_begun(alloc, shape, row.actor, operation, piece, &noted)?;
    let ended = call_ended(alloc, shape, row.actor, operation, piece, &noted, answer)?;
    Ok(Some((begun, ended)))
}

/// How many of these rows are as they say, from the first on, and are never over with an answer.
fn count_right(alloc: Global, rows: &[Entry]) -> Result<usize, AllocError> {
    for number in 0..rows.len() {
        let row = rows[number];
        if judged(alloc, &row, None)? != row.is {
            return Ok(number);
        }
        let answered = row.is.map(|(begun, _)| (begun, false));
        if judged(alloc, &row, Some(0))? != answered {
            return Ok(number);
        }
    }
    Ok(rows.len())
}

/// A write of EnableLPIs of vCPU 0 by vCPU 1.
fn enabling(made: Events, is: Option<(bool, bool)>) -> Entry {
    Entry {
        shape: SHAPE,
        actor: 1,
        operation: access(Frame::Redist { vcpu: 0 }, 0, 4, Some(1)),
        made,
        other: None,
        lpi: None,
        signals: false,
        is,
    }
}

/// The same where LPI 8193 was for vCPU 1.
fn of_another(made: Events, is: Option<(bool, bool)>) -> Entry {
    Entry {
        other: Some(1),
        ..enabling(made, is)
    }
}

fn enable(vcpu: u32, is_on: bool) -> Option<(Event, Found)> {
    Some((Event::Enable { vcpu }, Found::Lpis { is_on }))
}

fn word(word: PlainWord, value: u64) -> Option<(Event, Found)> {
    Some(read(Place::Word { word }, Found::Word { value }))
}

fn pend(id: u32) -> Option<(Event, Found)> {
    let key = Key::Lpi(id);
    let kind = Kind::SetPending;
    Some(touch(
        key,
        Touching::Register { kind, value: 1 },
        opening_irq(true, key),
    ))
}

#[test]
fn a_pending_table_is_read_after_enable_lpis(rt: HostRuntime) -> Result<(), Fail> {
    let (was, rises) = (enable(0, true), enable(0, false));
    let (zeros, table) = (word(TABLE, ZEROS), word(TABLE, 0));
    let (none, second) = (word(BITS, 0), word(BITS, 2));
    let rows = [
        enabling([None, None, None, None, None], BEGUN),
        enabling([was, None, None, None, None], ENDED),
        enabling([was, table, None, None, None], ENDED),
        enabling([was, pend(8193), None, None, None], NO),
        enabling([rises, None, None, None, None], BEGUN),
        enabling([rises, zeros, None, None, None], ENDED),
        enabling([zeros, rises, None, None, None], BEGUN),
        enabling([rises, table, None, None, None], BEGUN),
        enabling([rises, table, none, None, None], ENDED),
        enabling([rises, table, second, None, None], BEGUN),
        enabling([rises, table, second, none, None], ENDED),
        enabling([enable(1, false), None, None, None, None], NO),
        enabling([rises, rises, None, None, None], NO),
    ];
    assert_eq!(rt; count_right(rt.alloc(), &rows)?, rows.len());
    Ok(())
}

#[test]
fn pending_lpis_of_the_vcpu_are_touched(rt: HostRuntime) -> Result<(), Fail> {
    let rises = enable(0, false);
    let table = word(TABLE, 0);
    let (second, two) = (word(BITS, 2), word(BITS, 10));
    let unset = Some(touch(
        Key::Lpi(8193),
        Touching::Register {
            kind: Kind::SetPending,
            value: 0,
        },
        opening_irq(true, Key::Lpi(8193)),
    ));
    let by_device = Entry {
        actor: DEVICE,
        ..enabling([rises, None, None, None, None], NO)
    };
    let small = Entry {
        shape: SMALL,
        ..enabling([rises, pend(8193), None, None, None], NO)
    };
    let rows = [
        enabling([rises, table, second, pend(8193), None], ENDED),
        enabling([rises, pend(8193), table, second, None], ENDED),
        enabling([rises, table, second, pend(8194), None], BEGUN),
        enabling([rises, table, two, pend(8193), pend(8195)], ENDED),
        enabling([rises, table, two, pend(8195), pend(8193)], NO),
        enabling([rises, pend(FIRST + 16), None, None, None], NO),
        enabling([rises, unset, None, None, None], NO),
        of_another([rises, table, second, None, None], ENDED),
        of_another([rises, table, second, pend(8193), None], BEGUN),
        of_another([rises, pend(8193), pend(8195), None, None], NO),
        by_device,
        small,
    ];
    assert_eq!(rt; count_right(rt.alloc(), &rows)?, rows.len());
    Ok(())
}

/// A message of the device, which signals LPI 8193 while the ITS is enabled.
fn signalling(made: Events, is: Option<(bool, bool)>) -> Entry {
    let op = DeviceOp::Msi {
        device: 0,
        event: 0,
    };
    Entry {
        shape: SHAPE,
        actor: DEVICE,
        operation: Operation::Device { op },
        made,
        other: None,
        lpi: Some(8193),
        signals: false,
        is,
    }
}

/// The same where its event is not mapped.
fn unmapped(made: Events, is: Option<(bool, bool)>) -> Entry {
    Entry {
        lpi: None,
        ..signalling(made, is)
    }
}

/// The same where it has raised what it signalled.
fn signalled(made: Events, is: Option<(bool, bool)>) -> Entry {
    Entry {
        signals: true,
        ..signalling(made, is)
    }
}

#[test]
fn a_message_that_has_the_its_raises_its_lpi(rt: HostRuntime) -> Result<(), Fail> {
    let begin = Some((Event::ItsBegin, Found::Nothing));
    let end = Some((Event::ItsEnd, Found::Nothing));
    let own = Some(raise(Key::Lpi(8193)));
    let other = Some(raise(Key::Lpi(8194)));
    let (on, off) = (word(PlainWord::ItsCtlr, 1), word(PlainWord::ItsCtlr, 0));
    let by_vcpu = Entry {
        actor: 0,
        ..signalling([begin, None, None, None, None], NO)
    };
    let rows = [
        signalling([None, None, None, None, None], BEGUN),
        signalling([begin, None, None, None, None], BEGUN),
        signalling([begin, on, own, end, None], ENDED),
        signalling([begin, own, on, end, None], ENDED),
        signalling([begin, on, own, off, end], ENDED),
        signalling([begin, on, own, end, off], ENDED),
        signalling([begin, off, own, end, None], NO),
        signalling([begin, own, end, None, None], NO),
        signalling([on, begin, own, end, None], NO),
        signalling([begin, off, end, None, None], ENDED),
        signalling([begin, on, end, None, None], NO),
        signalling([begin, off, own, None, None], BEGUN),
        signalling([begin, other, None, None, None], NO),
        signalling([begin, own, own, None, None], NO),
        unmapped([begin, on, end, None, None], ENDED),
        unmapped([begin, own, None, None, None], NO),
        by_vcpu,
    ];
    assert_eq!(rt; count_right(rt.alloc(), &rows)?, rows.len());
    Ok(())
}

#[test]
fn a_lone_raise_has_to_be_a_signal(rt: HostRuntime) -> Result<(), Fail> {
    let own = Some(raise(Key::Lpi(8193)));
    let on = word(PlainWord::ItsCtlr, 1);
    let rows = [
        signalled([own, None, None, None, None], ENDED),
        signalled([on, own, None, None, None], ENDED),
        signalled([own, own, None, None, None], NO),
        signalling([own, None, None, None, None], NO),
        signalled([Some(raise(Key::Spi(40))), None, None, None, None], NO),
    ];
    assert_eq!(rt; count_right(rt.alloc(), &rows)?, rows.len());
    Ok(())
}

#[test]
fn plain_calls_are_judged_too(rt: HostRuntime) -> Result<(), Fail> {
    let own = Some(raise(Key::Spi(40)));
    let plain = Entry {
        operation: message(40),
        ..signalling([own, None, None, None, None], ENDED)
    };
    let cwriter = Entry {
        actor: 0,
        operation: access(Frame::Its, 0x88, 8, Some(32)),
        ..signalling([None, None, None, None, None], BEGUN)
    };
    let rows = [plain, cwriter];
    assert_eq!(rt; count_right(rt.alloc(), &rows)?, rows.len());
    Ok(())
}
