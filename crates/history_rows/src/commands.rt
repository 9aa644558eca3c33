//! From when on a command of the ITS excuses an interrupt that an acknowledge overlooks: from the first read of it on.
use crate::tests::{Row, begin, end, happens, play_on, reads, refused};
use history_play::{
    CallFound as Found, Cause, DeviceOp, Event, Frame, GuestOp, GuestShape, GuestSpec, IccReg, Key,
    ListOf, Moment, NoMemory, Operation, Place, PlainWord, QueueChange, Refusal, Touching,
    opening_irq,
};
use std::alloc::Global;
use std::test::Fail;

/// Two vCPUs, the LPI 8192, memory for five commands, and a device, the actor 2.
const SHAPE: GuestShape = GuestShape {
    vcpus: 2,
    spis: 0,
    espis: 0,
    devices: 1,
    lpis: 1,
    ram: 160,
};

/// The device.
const DEVICE: u32 = 2;
/// The vCPU that writes GITS_CWRITER.
const WRITER: u32 = 1;
/// The only LPI.
const LPI: Key = Key::Lpi(8192);

/// MAPD of device 0, with two events.
const MAPD: [u64; 4] = [0x08, 0, 1 << 63, 0];
/// MAPC of collection 0 to vCPU 0.
const MAPC: [u64; 4] = [0x09, 0, 1 << 63, 0];
/// MAPTI of event 0 to LPI 8192, in collection 0.
const MAPTI: [u64; 4] = [0x0A, 8192 << 32, 0, 0];
/// INT of event 0.
const INT: [u64; 4] = [0x03, 0, 0, 0];
/// SYNC of vCPU 0.
const SYNC: [u64; 4] = [0x05, 0, 0, 0];

/// A write of GITS_CWRITER.
fn begins_write(offset: u64) -> Row {
    begin(
        WRITER,
        GuestOp::Mem {
            frame: Frame::Its,
            offset: 0x88,
            size: 8,
            write: Some(offset),
        },
    )
}

/// The writer takes the ITS, and gives it back.
fn takes() -> Row {
    happens(WRITER, Event::ItsBegin, Found::Nothing)
}

fn gives() -> Row {
    happens(WRITER, Event::ItsEnd, Found::Nothing)
}

/// It reads a word of memory.
fn fetches(index: u32, value: u64) -> Row {
    let word = PlainWord::Ram { index };
    happens(
        WRITER,
        Event::Read {
            place: Place::Word { word },
        },
        Found::Word { value },
    )
}

/// A command of it ends.
fn done(offset: u32, words: [u64; 4]) -> Row {
    let change = QueueChange::Done { words };
    happens(WRITER, Event::Queue { offset, change }, Found::Nothing)
}

/// It does an INT.
fn raises() -> Row {
    happens(WRITER, Event::Raise { key: LPI }, Found::Nothing)
}

/// vCPU 0 stores the first doubleword of a command in memory, at the place of a doubleword.
fn stores(place: u8, value: u64) -> Row {
    let index = u32::from(place);
    Row::Call {
        actor: 0,
        operation: Operation::Access {
            op: GuestOp::Mem {
                frame: Frame::Ram,
                offset: index * 8,
                size: 8,
                write: Some(value),
            },
        },
        event: Event::Put {
            word: PlainWord::Ram { index },
            value,
        },
        found: Found::Word { value: 0 },
        answer: None,
    }
}

/// vCPU 0 sets its EnableLPIs.
fn enables() -> Row {
    Row::Call {
        actor: 0,
        operation: Operation::Access {
            op: GuestOp::Mem {
                frame: Frame::Redist { vcpu: 0 },
                offset: 0,
                size: 4,
                write: Some(1),
            },
        },
        event: Event::Enable { vcpu: 0 },
        found: Found::Lpis { is_on: false },
        answer: None,
    }
}

/// The LPI is mapped to vCPU 0, by three commands.
fn maps() -> [Row; 8] {
    let mapping = Touching::MapLpi {
        target: 0,
        enabled: true,
        prio: 0,
    };
    let event = Event::Touch {
        key: LPI,
        touching: mapping,
    };
    let irq = opening_irq(true, LPI);
    [
        begins_write(96),
        takes(),
        done(32, MAPD),
        done(64, MAPC),
        happens(WRITER, event, Found::Record { irq }),
        done(96, MAPTI),
        gives(),
        end(WRITER, None),
    ]
}

/// A message-signalled interrupt of event 0.
fn message() -> [Row; 5] {
    let op = DeviceOp::Msi {
        device: 0,
        event: 0,
    };
    let moment = Moment::Begin {
        actor: DEVICE,
        operation: Operation::Device { op },
    };
    [
        Row::One { moment },
        happens(DEVICE, Event::ItsBegin, Found::Nothing),
        happens(DEVICE, Event::Raise { key: LPI }, Found::Nothing),
        happens(DEVICE, Event::ItsEnd, Found::Nothing),
        end(DEVICE, None),
    ]
}

/// What is wrong with a history that ends so, in which the LPI is mapped to vCPU 0, which has EnableLPIs, and pending: 16 moments come before.
fn play(alloc: Global, last: &[Row]) -> Result<Option<Refusal>, NoMemory> {
    let guest = GuestSpec {
        shape: SHAPE,
        on: true,
        presets: ListOf::new(alloc),
    };
    let mut rows = ListOf::new(alloc);
    rows.push(enables())?;
    for row in maps() {
        rows.push(row)?;
    }
    for row in message() {
        rows.push(row)?;
    }
    for row in last {
        rows.push(*row)?;
    }
    play_on(alloc, &guest, rows.as_slice())
}

/// vCPU 0 reads no INTID while the writer, whose command is to raise the LPI once more, waits for the ITS; the command is stored after that.
fn unbegun() -> [Row; 9] {
    [
        begins_write(128),
        reads(0, IccReg::Iar1, 1023),
        stores(12, 3),
        takes(),
        fetches(12, 3),
        raises(),
        done(128, INT),
        gives(),
        end(WRITER, None),
    ]
}

/// The same once the writer has the ITS and has read the command.
fn fetched() -> [Row; 9] {
    [
        begins_write(128),
        stores(12, 3),
        takes(),
        fetches(12, 3),
        reads(0, IccReg::Iar1, 1023),
        raises(),
        done(128, INT),
        gives(),
        end(WRITER, None),
    ]
}

/// The same once it has read it, and before it has the ITS.
fn untaken() -> [Row; 9] {
    [
        begins_write(128),
        stores(12, 3),
        fetches(12, 3),
        reads(0, IccReg::Iar1, 1023),
        takes(),
        raises(),
        done(128, INT),
        gives(),
        end(WRITER, None),
    ]
}

/// A SYNC comes before that command. vCPU 0 reads no INTID once the SYNC is done.
fn unread() -> [Row; 12] {
    [
        begins_write(160),
        stores(12, 5),
        stores(16, 3),
        takes(),
        fetches(12, 5),
        done(128, SYNC),
        reads(0, IccReg::Iar1, 1023),
        fetches(16, 3),
        raises(),
        done(160, INT),
        gives(),
        end(WRITER, None),
    ]
}

/// The same once the next command is read too, and once it was read before it was the next.
fn read_next() -> [Row; 12] {
    [
        begins_write(160),
        stores(12, 5),
        stores(16, 3),
        takes(),
        fetches(12, 5),
        done(128, SYNC),
        fetches(16, 3),
        reads(0, IccReg::Iar1, 1023),
        raises(),
        done(160, INT),
        gives(),
        end(WRITER, None),
    ]
}

fn read_early() -> [Row; 12] {
    [
        begins_write(160),
        stores(12, 5),
        stores(16, 3),
        takes(),
        fetches(12, 5),
        fetches(16, 3),
        done(128, SYNC),
        reads(0, IccReg::Iar1, 1023),
        raises(),
        done(160, INT),
        gives(),
        end(WRITER, None),
    ]
}

#[test]
fn a_command_excuses_once_it_is_read(rt: HostRuntime) -> Result<(), Fail> {
    let alloc = rt.alloc();
    assert_eq!(rt;
        play(alloc, unbegun().as_slice())?,
        refused(18, Cause::Acknowledge)
    );
    assert_eq!(rt; play(alloc, fetched().as_slice())?, None);
    assert_eq!(rt;
        play(alloc, untaken().as_slice())?,
        refused(22, Cause::Acknowledge)
    );
    Ok(())
}

#[test]
fn each_command_excuses_by_itself(rt: HostRuntime) -> Result<(), Fail> {
    let alloc = rt.alloc();
    assert_eq!(rt;
        play(alloc, unread().as_slice())?,
        refused(27, Cause::Acknowledge)
    );
    assert_eq!(rt; play(alloc, read_next().as_slice())?, None);
    assert_eq!(rt;
        play(alloc, read_early().as_slice())?,
        refused(28, Cause::Acknowledge)
    );
    Ok(())
}
