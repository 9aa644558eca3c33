//! Commands in a guest's queue, and what they leave.

use crate::guest::{
    CBASER, CONFIG, LATCHED, LpiState, MAPPED, MOVED, NO_COMMAND, NOTHING, PROPBASER, QUEUE_PLACES,
    SECOND_PLACE, SHAPE, TABLE, address_of_place, lpi_state, map_event, open_guest, queue_state,
};
use gic_msi::{Port, give_turn, put_plain, take_turn};
use pe_op::{QueueEnd, look_at_queue, move_queue, run_commands, run_queue, shut};
use port_rest::{
    CLEAR, DEVICE_ID, DISCARD, EVENT_ID, INT, INV, LPI, MAP_LPI, MAPC, MOVI, OTHER_MAPC, SYNC,
    command_words, is_at_ease,
};
use port_seq::{COMMAND_BYTES, Command, PlainWord};
use std::alloc::{AllocError, Global};
use std::sync::Wait;
use std::test::Fail;

/// The bytes of the memory, as an address.
const RAM_END: u32 = 65536;

/// The configuration byte with a reserved bit; and one of priority 0x40.
const RESERVED_CONFIG: u64 = 0xA3 << 24;

const OTHER_CONFIG: u64 = 0x41 << 24;

/// SYNC of vCPU 0.
const OTHER_SYNC: Command = Command::Sync { rdbase: 0 };

/// What is written over the set-up.
#[derive(Clone, Copy)]
enum Change {
    Nothing,
    /// A command at its place in the queue.
    Queue(u16, Command),
    /// Eight bytes of memory at an address.
    Memory(u32, u64),
}

/// The number of no command, in place of that of the second.
const UNKNOWN: Change = Change::Memory(SECOND_PLACE, NO_COMMAND);

/// A change of the set-up, the commands behind it, the configuration bytes before these are taken, and where GITS_CWRITER is then.
#[derive(Clone, Copy)]
struct Row {
    change: Change,
    more: [Command; 3],
    config: u64,
    writer: u64,
}

/// The set-up alone.
const PLAIN: Row = Row {
    change: Change::Nothing,
    more: [SYNC; 3],
    config: CONFIG,
    writer: 0x80,
};

/// How a queue ended, its word, and the number of the fault; and the LPI.
type Outcome = (QueueEnd, u64, u64, LpiState);

/// Stores a register.
fn put<P: Port, R: Wait>(rt: &R, port: &mut P, word: PlainWord, value: u64) {
    if port.shape() != SHAPE {
        return;
    }
    match word {
        PlainWord::Propbaser { vcpu: 0 | 1 } | PlainWord::Cbaser | PlainWord::Cwriter => {
            put_plain(rt, port, word, value);
        }
        _ => {}
    }
}

/// Stores GITS_CTLR, while all translation lines are shut.
fn put_control<P: Port, R: Wait>(rt: &R, port: &mut P, value: u64) {
    if port.shape() != SHAPE {
        return;
    }
    take_turn(rt, port);
    shut(rt, port);
    put_plain(rt, port, PlainWord::ItsCtlr, value);
    give_turn(port);
}

/// Stores eight bytes of memory.
fn poke<P: Port, R: Wait>(rt: &R, port: &mut P, address: u32, value: u64) {
    if port.shape() != SHAPE || address >= RAM_END {
        return;
    }
    let word = PlainWord::Ram { index: address / 8 };
    put_plain(rt, port, word, value);
}

/// Stores a command at its place in the queue.
fn write_command<P: Port, R: Wait>(rt: &R, port: &mut P, place: u16, command: &Command) {
    let Some(words) = command_words(command) else {
        return;
    };
    let address = address_of_place(place);
    for i in 0..4 {
        poke(rt, port, address + 8 * i as u32, words[i]);
    }
}

/// Stores commands in the queue, from a place on.
fn write_commands<P: Port, R: Wait>(rt: &R, port: &mut P, first: u16, commands: &[Command]) {
    let mut place = first;
    for command in commands {
        write_command(rt, port, place, command);
        place = place.wrapping_add(1);
    }
}

/// Takes the ITS, runs its queue, and gives it back. None where the actor may not.
fn run<P: Port, R: Wait>(rt: &R, port: &mut P) -> Option<QueueEnd> {
    if port.shape() != SHAPE || !is_at_ease(port.local_ref()) {
        return None;
    }
    take_turn(rt, port);
    shut(rt, port);
    let mut tables = port.take_tables();
    let end = run_queue(rt, port, &mut tables, &SHAPE);
    port.put_tables(tables);
    give_turn(port);
    Some(end)
}

/// Takes the ITS, ends the stall of its queue, runs it, and gives it back. None where the actor may not.
fn retry<P: Port, R: Wait>(rt: &R, port: &mut P) -> Option<QueueEnd> {
    if port.shape() != SHAPE || !is_at_ease(port.local_ref()) {
        return None;
    }
    take_turn(rt, port);
    shut(rt, port);
    let mut tables = port.take_tables();
    let mut queue = look_at_queue(port);
    let offset = queue.offset;
    move_queue(port, &mut queue, offset);
    let end = run_commands(rt, port, &mut tables, &SHAPE, queue);
    port.put_tables(tables);
    give_turn(port);
    Some(end)
}

/// The registers before the first command.
fn set_up<P: Port, R: Wait>(rt: &R, port: &mut P) {
    put(rt, port, PlainWord::Propbaser { vcpu: 0 }, PROPBASER);
    put(rt, port, PlainWord::Propbaser { vcpu: 1 }, PROPBASER);
    put(rt, port, PlainWord::Cbaser, CBASER);
    put_control(rt, port, 1);
    poke(rt, port, TABLE, CONFIG);
    write_commands(rt, port, 0, MAP_LPI.as_slice());
}

/// What is there after a run of the queue that ended so. None where the guest has another shape.
fn told<P: Port>(port: &mut P, end: QueueEnd) -> Option<Outcome> {
    let (word, fault) = queue_state(port)?;
    Some((end, word, fault, lpi_state(port)?))
}

/// Runs the queue up to an offset. None where the actor may not.
fn run_to<P: Port, R: Wait>(rt: &R, port: &mut P, writer: u64) -> Option<Outcome> {
    put(rt, port, PlainWord::Cwriter, writer);
    let end = run(rt, port)?;
    told(port, end)
}

/// Runs a row: the set-up with its change, and then the others, if there are any. None where the actor may not.
fn outcome<P: Port, R: Wait>(rt: &R, port: &mut P, row: &Row) -> Option<Outcome> {
    set_up(rt, port);
    match row.change {
        Change::Nothing => {}
        Change::Queue(place, command) => write_command(rt, port, place, &command),
        Change::Memory(address, value) => poke(rt, port, address, value),
    }
    let first = run_to(rt, port, 0x80)?;
    if row.writer == 0x80 {
        return Some(first);
    }
    poke(rt, port, TABLE, row.config);
    write_commands(rt, port, 4, row.more.as_slice());
    run_to(rt, port, row.writer)
}

/// A row on a guest of its own. None where it can't be run.
fn outcome_of<R: Wait>(rt: &R, alloc: Global, row: &Row) -> Result<Option<Outcome>, AllocError> {
    match open_guest(alloc, SHAPE)? {
        Some(mut port) => Ok(outcome(rt, &mut port, row)),
        None => Ok(None),
    }
}

/// The set-up, whose second command has an unknown number; that is mended, and a write of GITS_CWRITER ends the stall. None
/// where the actor may not.
fn retried<P: Port, R: Wait>(rt: &R, port: &mut P) -> Option<(Outcome, Outcome)> {
    set_up(rt, port);
    poke(rt, port, SECOND_PLACE, NO_COMMAND);
    let first = run_to(rt, port, 0x80)?;
    write_command(rt, port, 1, &MAPC);
    let end = retry(rt, port)?;
    Some((first, told(port, end)?))
}

/// The set-up, then SYNC up to the end of the queue, and INT at its begin. None where the actor may not.
fn wrapped<P: Port, R: Wait>(rt: &R, port: &mut P) -> Option<Outcome> {
    set_up(rt, port);
    let _set_up = run_to(rt, port, 0x80)?;
    for place in 4..QUEUE_PLACES {
        write_command(rt, port, place, &OTHER_SYNC);
    }
    write_command(rt, port, 0, &INT);
    run_to(rt, port, 0x20)
}

/// What a queue with Retry and one without come to, on guests of their own.
fn retried_of<R: Wait>(rt: &R, alloc: Global) -> Result<Option<(Outcome, Outcome)>, AllocError> {
    match open_guest(alloc, SHAPE)? {
        Some(mut port) => Ok(retried(rt, &mut port)),
        None => Ok(None),
    }
}

fn wrapped_of<R: Wait>(rt: &R, alloc: Global) -> Result<Option<Outcome>, AllocError> {
    match open_guest(alloc, SHAPE)? {
        Some(mut port) => Ok(wrapped(rt, &mut port)),
        None => Ok(None),
    }
}

/// A queue that came to its end.
fn went(word: u64, lpi: LpiState) -> Option<Outcome> {
    Some((QueueEnd::Empty, word, 0, lpi))
}

/// A queue that stalled at an offset.
fn stalled(offset: u32, fault: u8, lpi: LpiState) -> Option<Outcome> {
    Some((
        QueueEnd::Stalled { offset, fault },
        u64::from(offset) + 1,
        u64::from(fault),
        lpi,
    ))
}

#[test]
fn rows_of_the_set_up(rt: HostRuntime) -> Result<(), Fail> {
    // As it is; with a reserved bit of the configuration byte; the last event of the device.
    for change in [
        Change::Nothing,
        Change::Memory(TABLE, RESERVED_CONFIG),
        Change::Queue(2, map_event(DEVICE_ID, 31, LPI, 1)),
    ] {
        let row = Row { change, ..PLAIN };
        assert_eq!(rt; outcome_of(&rt, rt.alloc(), &row)?, went(0x80, MAPPED));
    }
    Ok(())
}

#[test]
fn rows_of_commands(rt: HostRuntime) -> Result<(), Fail> {
    let urgent = (true, 0x40, false, Some(1));
    // INT; then MAPC of ICID 2 to vCPU 0 and MOVI, or CLEAR, or DISCARD; INV of another byte, and SYNC.
    for (more, config, writer, lpi) in [
        ([INT, OTHER_MAPC, MOVI], CONFIG, 0xE0, MOVED),
        ([INT, CLEAR, INT], CONFIG, 0xC0, MAPPED),
        ([INT, DISCARD, INT], CONFIG, 0xC0, NOTHING),
        ([INV, SYNC, SYNC], OTHER_CONFIG, 0xC0, urgent),
    ] {
        let row = Row {
            more,
            config,
            writer,
            ..PLAIN
        };
        assert_eq!(rt; outcome_of(&rt, rt.alloc(), &row)?, went(writer, lpi));
    }
    Ok(())
}

/// MAPD of a device with `size` + 1 bits of EventID.
fn map_device(device: u32, size: u32) -> Command {
    Command::Mapd {
        device,
        size,
        itt_addr: 0x20,
        valid: true,
    }
}

#[test]
fn rows_of_faults(rt: HostRuntime) -> Result<(), Fail> {
    let unmapped = Command::Int {
        device: DEVICE_ID,
        event: 4,
    };
    let nowhere = Command::Sync { rdbase: 2 };
    for (place, command, fault, lpi) in [
        (2, map_event(DEVICE_ID, 32, LPI, 1), 4, NOTHING),
        (0, map_device(0x1_0000, 4), 1, NOTHING),
        (0, map_device(DEVICE_ID, 16), 2, NOTHING),
        (2, map_event(9, EVENT_ID, LPI, 1), 3, NOTHING),
        (3, unmapped, 5, MAPPED),
        (2, map_event(DEVICE_ID, EVENT_ID, 8208, 1), 6, NOTHING),
        (2, map_event(DEVICE_ID, EVENT_ID, LPI, 2), 7, NOTHING),
        (3, nowhere, 8, MAPPED),
    ] {
        let row = Row {
            change: Change::Queue(place, command),
            ..PLAIN
        };
        let offset = COMMAND_BYTES * u32::from(place);
        assert_eq!(rt;
            outcome_of(&rt, rt.alloc(), &row)?,
            stalled(offset, fault, lpi)
        );
    }
    Ok(())
}

#[test]
fn rows_of_the_queue(rt: HostRuntime) -> Result<(), Fail> {
    let alloc = rt.alloc();
    // A number of no command stalls the queue, which goes on once a good one is there.
    let row = Row {
        change: UNKNOWN,
        ..PLAIN
    };
    assert_eq!(rt; outcome_of(&rt, alloc, &row)?, stalled(0x20, 10, NOTHING));
    assert_eq!(rt;
        retried_of(&rt, alloc)?,
        stalled(0x20, 10, NOTHING).zip(went(0x80, MAPPED))
    );
    // The queue goes on at its begin.
    assert_eq!(rt; wrapped_of(&rt, alloc)?, went(0x20, LATCHED));
    Ok(())
}
