//! Calls that neither take the ITS nor set EnableLPIs, with what they made, and what that is.
ghost use Rattle.std.specs.Prelude.{◌≡◌};
ghost use Rattle.scn_base.specs.Words.{IsShape};
ghost use Rattle.history_calls.specs.Exact.{is_good as is_good_of};

use history_calls::{
    DeviceOp, Enables, Event, Found, Frame, GuestOp, GuestShape, IccReg, Irq, Key, Kind, ListOf,
    Made, Operation, Place, PlainWord, Touching, are_records, call_begun, call_ended, is_plain,
    opening_irq,
};
use scn_base::is_good_op;
use std::alloc::{AllocError, Global};
use std::test::Fail;

/// Two vCPUs, SPIs 32 to 63, a device, the actor 2, LPIs and 64 bytes of memory.
const SHAPE: GuestShape = GuestShape {
    vcpus: 2,
    spis: 32,
    espis: 0,
    devices: 1,
    lpis: 16,
    ram: 64,
};

/// The device.
pub(crate) const DEVICE: u32 = 2;

/// Up to three events that a call made.
type Events = [Option<(Event, Found)>; 3];

/// What a call made is nothing of it, its beginning, or all of it with this answer.
pub(crate) const NO: Option<(bool, bool)> = Some((false, false));

pub(crate) const BEGUN: Option<(bool, bool)> = Some((true, false));

pub(crate) const ENDED: Option<(bool, bool)> = Some((true, true));

/// Whether a vCPU can do an operation.
pub(crate) fn is_good(shape: &GuestShape, operation: &Operation) -> bool
    requires { IsShape shape.now }
    ensures { result ≡ is_good_of shape.now operation.now }
{
    match operation {
        Operation::Access { op } => is_good_op(shape, op),
        Operation::Device { .. } | Operation::Residence => true,
    }
}

/// Whether a call can still become one, and whether it is one with this answer; none where this is not told of it.
fn judged(
    alloc: Global,
    actor: u32,
    operation: Operation,
    made: Events,
    answer: Option<u64>,
) -> Result<Option<(bool, bool)>, AllocError> {
    let mut piece = ListOf::new(alloc);
    for one in made {
        if let Some((event, found)) = one {
            piece.push(Made { event, found })?;
        }
    }
    let piece = piece.as_slice();
    if !SHAPE.is_in_range() || !is_good(&SHAPE, &operation) || !is_plain(&SHAPE, &operation) {
        return Ok(None);
    }
    if !are_records(&SHAPE, piece) {
        return Ok(None);
    }
    let begun = call_begun(alloc, &SHAPE, actor, &operation, piece)?;
    let ended = call_ended(alloc, &SHAPE, actor, &operation, piece, answer)?;
    Ok(Some((begun, ended)))
}

/// What an actor made of an operation, and what that is with an answer.
#[derive(Clone, Copy)]
struct Entry {
    actor: u32,
    operation: Operation,
    made: Events,
    answer: Option<u64>,
    is: Option<(bool, bool)>,
}

fn row(
    actor: u32,
    operation: Operation,
    made: Events,
    answer: Option<u64>,
    is: Option<(bool, bool)>,
) -> Entry {
    Entry {
        actor,
        operation,
        made,
        answer,
        is,
    }
}

/// How many of these rows are as they say, from the first on.
fn count_right(alloc: Global, rows: &[Entry]) -> Result<usize, AllocError> {
    for number in 0..rows.len() {
        let row = &rows[number];
        if judged(alloc, row.actor, row.operation, row.made, row.answer)? != row.is {
            return Ok(number);
        }
    }
    Ok(rows.len())
}

pub(crate) fn message(spi: u32) -> Operation {
    let op = DeviceOp::Message { spi };
    Operation::Device { op }
}

fn icc(reg: IccReg, write: Option<u64>) -> Operation {
    let op = GuestOp::Icc { reg, write };
    Operation::Access { op }
}

pub(crate) fn access(frame: Frame, offset: u32, size: u32, write: Option<u64>) -> Operation {
    let op = GuestOp::Mem {
        frame,
        offset,
        size,
        write,
    };
    Operation::Access { op }
}

pub(crate) fn raise(key: Key) -> (Event, Found) {
    (Event::Raise { key }, Found::Nothing)
}

/// SPI 40 with priority 0xA0.
fn irq() -> Irq {
    Irq {
        prio: 0xA0,
        ..opening_irq(true, Key::Spi(40))
    }
}

pub(crate) fn touch(key: Key, touching: Touching, irq: Irq) -> (Event, Found) {
    (Event::Touch { key, touching }, Found::Record { irq })
}

pub(crate) fn read(place: Place, found: Found) -> (Event, Found) {
    (Event::Read { place }, found)
}

#[test]
fn a_message_raises_its_spi_once(rt: HostRuntime) -> Result<(), Fail> {
    let (own, other) = (raise(Key::Spi(40)), raise(Key::Spi(41)));
    let rows = [
        row(DEVICE, message(40), [None, None, None], None, BEGUN),
        row(DEVICE, message(40), [Some(own), None, None], None, ENDED),
        row(DEVICE, message(40), [Some(own), None, None], Some(0), BEGUN),
        row(DEVICE, message(40), [Some(other), None, None], None, NO),
        row(DEVICE, message(40), [Some(own), Some(own), None], None, NO),
        row(0, message(40), [Some(own), None, None], None, NO),
    ];
    assert_eq!(rt; count_right(rt.alloc(), &rows)?, rows.len());
    Ok(())
}

#[test]
fn an_access_answers_what_it_read(rt: HostRuntime) -> Result<(), Fail> {
    let key = Key::Spi(40);
    let reach = (Event::Reach { key, vcpu: 0 }, Found::Nothing);
    let cpu = Event::Cpu {
        vcpu: 0,
        reg: IccReg::Iar1,
        write: None,
    };
    let iar = (cpu, Found::Answer { value: Some(40) });
    let operation = icc(IccReg::Iar1, None);
    let rows = [
        row(0, operation, [Some(reach), None, None], None, BEGUN),
        row(
            0,
            operation,
            [Some(reach), Some(iar), None],
            Some(40),
            ENDED,
        ),
        row(
            0,
            operation,
            [Some(reach), Some(iar), None],
            Some(41),
            BEGUN,
        ),
        row(1, operation, [Some(iar), None, None], Some(40), NO),
        row(
            0,
            Operation::Residence,
            [Some(reach), None, None],
            None,
            ENDED,
        ),
        row(1, Operation::Residence, [Some(reach), None, None], None, NO),
    ];
    assert_eq!(rt; count_right(rt.alloc(), &rows)?, rows.len());
    Ok(())
}

#[test]
fn sgis_come_in_rising_order(rt: HostRuntime) -> Result<(), Fail> {
    let write = Some(0x0500_0003);
    let cpu = Event::Cpu {
        vcpu: 0,
        reg: IccReg::Sgi1r,
        write,
    };
    let cpu = (cpu, Found::Answer { value: None });
    let own = raise(Key::Private { vcpu: 0, id: 5 });
    let other = raise(Key::Private { vcpu: 1, id: 5 });
    let operation = icc(IccReg::Sgi1r, write);
    let rows = [
        row(0, operation, [Some(cpu), Some(own), None], None, BEGUN),
        row(
            0,
            operation,
            [Some(cpu), Some(own), Some(other)],
            None,
            ENDED,
        ),
        row(0, operation, [Some(cpu), Some(other), Some(own)], None, NO),
    ];
    assert_eq!(rt; count_right(rt.alloc(), &rows)?, rows.len());
    Ok(())
}

#[test]
fn parts_go_by_their_records(rt: HostRuntime) -> Result<(), Fail> {
    let key = Key::Spi(40);
    let kind = Kind::Priority;
    let byte = touch(key, Touching::Read { kind }, irq());
    let reads = access(Frame::Dist, 0x428, 1, None);
    let unset = touch(
        Key::Spi(32),
        Touching::Register {
            kind: Kind::ClearPending,
            value: 0,
        },
        opening_irq(true, Key::Spi(32)),
    );
    let clears = access(Frame::Dist, 0x284, 4, Some(0x100));
    let sets = access(Frame::Dist, 0x284, 4, Some(0x101));
    let wrong = Irq {
        prio: 0xA4,
        ..irq()
    };
    let wrong = touch(key, Touching::Read { kind }, wrong);
    let rows = [
        row(0, reads, [None, None, None], None, BEGUN),
        row(0, reads, [Some(byte), None, None], Some(0xA0), ENDED),
        row(0, reads, [Some(byte), None, None], Some(0), BEGUN),
        row(1, clears, [Some(unset), None, None], None, BEGUN),
        row(1, sets, [Some(unset), None, None], None, NO),
        row(0, reads, [Some(wrong), None, None], Some(0xA4), None),
    ];
    assert_eq!(rt; count_right(rt.alloc(), &rows)?, rows.len());
    Ok(())
}

#[test]
fn a_half_of_a_route_keeps_the_other(rt: HostRuntime) -> Result<(), Fail> {
    let key = Key::Spi(40);
    let kind = Kind::Routing;
    let writes = access(Frame::Dist, 0x6140, 4, Some(1));
    let right = touch(key, Touching::Register { kind, value: 1 }, irq());
    let wrong = touch(key, Touching::Register { kind, value: 2 }, irq());
    let rows = [
        row(0, writes, [Some(right), None, None], None, ENDED),
        row(0, writes, [Some(wrong), None, None], None, NO),
    ];
    assert_eq!(rt; count_right(rt.alloc(), &rows)?, rows.len());
    Ok(())
}

/// GICD_CTLR as it is read, with EnableGrp1.
fn ctlr(is_spreading: bool) -> (Event, Found) {
    let enables = Enables {
        group0: false,
        group1: true,
    };
    read(
        Place::Ctlr,
        Found::Ctlr {
            enables,
            is_spreading,
        },
    )
}

#[test]
fn the_last_read_counts(rt: HostRuntime) -> Result<(), Fail> {
    let ctlr_read = access(Frame::Dist, 0, 4, None);
    let (early, late) = (ctlr(true), ctlr(false));
    let word = PlainWord::ItsCtlr;
    let its = read(Place::Word { word }, Found::Word { value: 1 });
    let its_read = access(Frame::Its, 0, 4, None);
    let lpis = read(Place::Lpis { vcpu: 1 }, Found::Lpis { is_on: true });
    let redist_read = access(Frame::Redist { vcpu: 1 }, 0, 4, None);
    let rows = [
        row(0, ctlr_read, [None, None, None], Some(0x52), BEGUN),
        row(
            0,
            ctlr_read,
            [Some(early), None, None],
            Some(0x8000_0052),
            ENDED,
        ),
        row(
            0,
            ctlr_read,
            [Some(early), Some(late), None],
            Some(0x52),
            ENDED,
        ),
        row(
            0,
            ctlr_read,
            [Some(late), Some(early), None],
            Some(0x52),
            BEGUN,
        ),
        row(1, its_read, [Some(its), None, None], Some(1), ENDED),
        row(
            1,
            its_read,
            [Some(its), None, None],
            Some(0x8000_0001),
            BEGUN,
        ),
        row(0, redist_read, [Some(lpis), None, None], Some(1), ENDED),
    ];
    assert_eq!(rt; count_right(rt.alloc(), &rows)?, rows.len());
    Ok(())
}

#[test]
fn tables_stay_where_lpis_are_enabled(rt: HostRuntime) -> Result<(), Fail> {
    let word = PlainWord::Propbaser { vcpu: 0 };
    let put = |value| (Event::Put { word, value }, Found::Word { value: 0 });
    let on = |is_on| read(Place::Lpis { vcpu: 0 }, Found::Lpis { is_on });
    let writes = access(Frame::Redist { vcpu: 0 }, 0x70, 8, Some(0x1_000F));
    let (right, wrong) = (put(0x1_000F), put(0x1_0000));
    let rows = [
        row(1, writes, [Some(right), None, None], None, BEGUN),
        row(1, writes, [Some(right), Some(on(false)), None], None, ENDED),
        row(1, writes, [Some(right), Some(on(true)), None], None, BEGUN),
        row(1, writes, [Some(on(true)), None, None], None, ENDED),
        row(1, writes, [Some(wrong), None, None], None, NO),
    ];
    assert_eq!(rt; count_right(rt.alloc(), &rows)?, rows.len());
    Ok(())
}

#[test]
fn memory_is_the_words_bytes(rt: HostRuntime) -> Result<(), Fail> {
    let word = PlainWord::Ram { index: 2 };
    let stored = Found::Word { value: 0x1122 };
    let writes = access(Frame::Ram, 17, 1, Some(0xFF));
    let put = |value| (Event::Put { word, value }, stored);
    let reads = access(Frame::Ram, 16, 1, None);
    let place = Place::Word { word };
    let rows = [
        row(0, writes, [Some(put(0xFF22)), None, None], None, ENDED),
        row(0, writes, [Some(put(0x11FF)), None, None], None, NO),
        row(
            0,
            reads,
            [Some(read(place, stored)), None, None],
            Some(0x22),
            ENDED,
        ),
    ];
    assert_eq!(rt; count_right(rt.alloc(), &rows)?, rows.len());
    Ok(())
}

#[test]
fn what_takes_the_its_is_not_told(rt: HostRuntime) -> Result<(), Fail> {
    let op = DeviceOp::Msi {
        device: 0,
        event: 0,
    };
    let msi = Operation::Device { op };
    let cwriter = access(Frame::Its, 0x88, 8, Some(32));
    let enable = access(Frame::Redist { vcpu: 0 }, 0, 4, Some(1));
    let disable = access(Frame::Redist { vcpu: 0 }, 0, 4, Some(0));
    let rows = [
        row(DEVICE, msi, [None, None, None], None, None),
        row(0, cwriter, [None, None, None], None, None),
        row(0, enable, [None, None, None], None, None),
        row(0, disable, [None, None, None], None, ENDED),
    ];
    assert_eq!(rt; count_right(rt.alloc(), &rows)?, rows.len());
    Ok(())
}
