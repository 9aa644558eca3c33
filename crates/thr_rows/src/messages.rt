//! Two devices whose messages have one translation line, while a vCPU takes their events out of the maps and puts them in again, and
//! another one acknowledges.

use crate::call::call;
use crate::input::{SETUP, push_step, push_steps};
use crate::lines::{ending, value_of};
use gic_top::{OK, OpenGate};
use std::alloc::{AllocError, Global};
use std::process::Abort;
use std::test::Fail;

/// Two vCPUs and two devices.
const GUEST: &str =
    r#"{"lrs":2,"guests":[{"vcpus":2,"devices":2,"lpis":16,"ram":65536,"on":true}],"steps":["#;

/// The configuration byte of LPI 8196, a command behind those of the set-up that maps event 67 of DeviceID 8 to it, and GITS_CWRITER
/// behind that.
const OTHER_LPI: [&str; 5] = [
    r#"{"vcpu":[0,0],"ram":"0x3004","size":1,"write":"0xA1"}"#,
    r#"{"vcpu":[0,0],"ram":"0x1080","size":8,"write":"0x80000000A"}"#,
    r#"{"vcpu":[0,0],"ram":"0x1088","size":8,"write":"0x200400000043"}"#,
    r#"{"vcpu":[0,0],"ram":"0x1090","size":8,"write":1}"#,
    r#"{"vcpu":[0,0],"gits":"0x88","size":8,"write":"0xA0"}"#,
];

/// How often the events are taken out of the maps and put in again: as often as the queue has room for the commands, behind the five
/// that map them first.
const ROUNDS: u32 = 30;

/// The address of the commands of the first round, and the bytes of each round's.
const COMMANDS: u64 = 0x10A0;

const ROUND_BYTES: u64 = 0x80;

/// The commands of a round, by the bytes before each doubleword: DISCARD of the events 3 and 67 of DeviceID 8, and MAPTI of them, to the
/// LPIs 8195 and 8196. Their messages have line 59 both: 31 * 8 + 3 is 251, and 31 * 8 + 67 is 315.
const ROUND_STORES: [(u32, u64); 10] = [
    (0x00, 0x8_0000_000F),
    (0x08, 3),
    (0x20, 0x8_0000_000F),
    (0x28, 67),
    (0x40, 0x8_0000_000A),
    (0x48, 0x2003_0000_0003),
    (0x50, 1),
    (0x60, 0x8_0000_000A),
    (0x68, 0x2004_0000_0043),
    (0x70, 1),
];

/// Where GITS_CWRITER is before the first round, and how far it goes for the first half of a round's commands.
const WRITER: u64 = 0xA0;

const HALF_BYTES: u64 = 0x40;

/// What vCPU 0 keeps at this address, with the round's number: that the events are out, from when the writes of their DISCARD have ended; or
/// that they are in, from before it writes their MAPTI.
const STAMP: u64 = 0x8000;

const OUT: u64 = 0xD_0000_0000;

const IN: u64 = 0xA_0000_0000;

/// How the text of such a value begins while the events are out.
const OUT_DIGITS: &str = "0000000d";

/// How often the value is stored that the events are out, so that vCPU 1 can do something meanwhile.
const PAUSES: u32 = 4;

/// vCPU 1 looks at the value, acknowledges, and ends what that may have been.
const ROUND_OF_1: [&str; 3] = [
    r#"{"vcpu":[0,1],"ram":"0x8000","size":8}"#,
    r#"{"vcpu":[0,1],"icc":"IAR1"}"#,
    r#"{"vcpu":[0,1],"icc":"EOIR1","write":8195}"#,
];

/// How often it does.
const LOOKS: u32 = 400;

/// Nothing is acknowledged.
const NOTHING: &str = "00000000000003ff";

/// How the line of a value ends where an LPI is acknowledged.
const FIRST_LPI: &str = " 0x0000000000002003";

const SECOND_LPI: &str = " 0x0000000000002004";

/// How the maps end: as the last round leaves them.
const MAPPED: &str = "\ndev 0 8 bits=7\nevt 0 8 3 8195 1\nevt 0 8 67 8196 1\ncol 0 1 1\n";

/// An event of the device that is never mapped.
const NO_EVENT: u32 = 99;

/// What both devices send: first so many messages of the event that is never mapped, so that some time goes by, and then so many of the
/// event of each. How often each LPI is acknowledged at most: once for each message.
#[derive(Clone, Copy)]
struct Row {
    before: u32,
    events: [u32; 2],
    messages: u32,
    most: [usize; 2],
}

/// One pair, and two pairs of one line; many messages of each device, and a single one.
const ROWS: [Row; 4] = [
    Row {
        before: 0,
        events: [3, 3],
        messages: 1000,
        most: [2000, 0],
    },
    Row {
        before: 0,
        events: [3, 67],
        messages: 1000,
        most: [1000, 1000],
    },
    Row {
        before: 500,
        events: [3, 3],
        messages: 1,
        most: [2, 0],
    },
    Row {
        before: 500,
        events: [3, 67],
        messages: 1,
        most: [1, 1],
    },
];

/// How many PEs, and how many operations a vCPU does at most while it is on one.
const WORDS: [[&str; 3]; 3] = [
    ["threads", "2", "1"],
    ["threads", "2", "7"],
    ["threads", "2", "1000"],
];

/// How often each row is run so.
const RUNS: u32 = 1;

/// vCPU 0 stores eight bytes.
fn push_store(
    alloc: Global,
    input: &mut String,
    address: u64,
    value: u64,
) -> Result<(), AllocError> {
    let step = format!(in alloc;
        "{{\"vcpu\":[0,0],\"ram\":{address},\"size\":8,\"write\":{value}}}"
    )?;
    push_step(input, step.as_str())
}

/// vCPU 0 lets the ITS do the commands before an offset of the queue.
fn push_writer(alloc: Global, input: &mut String, offset: u64) -> Result<(), AllocError> {
    let step = format!(in alloc; "{{\"vcpu\":[0,0],\"gits\":136,\"size\":8,\"write\":{offset}}}")?;
    push_step(input, step.as_str())
}

/// vCPU 0 stores the commands of a round.
fn push_commands(alloc: Global, input: &mut String, round: u32) -> Result<(), AllocError> {
    let first = COMMANDS + ROUND_BYTES * u64::from(round);
    for (before, value) in ROUND_STORES {
        push_store(alloc, input, first + u64::from(before), value)?;
    }
    Ok(())
}

/// vCPU 0 stores the commands of a round, and lets the ITS do both halves of them.
fn push_round(alloc: Global, input: &mut String, round: u32) -> Result<(), AllocError> {
    push_commands(alloc, input, round)?;
    let before = WRITER + ROUND_BYTES * u64::from(round);
    push_writer(alloc, input, before + HALF_BYTES)?;
    for _ in 0..PAUSES {
        push_store(alloc, input, STAMP, OUT + u64::from(round))?;
    }
    push_store(alloc, input, STAMP, IN + u64::from(round))?;
    push_writer(alloc, input, before + ROUND_BYTES)
}

/// A device sends so many messages of an event.
fn push_messages(
    alloc: Global,
    input: &mut String,
    device: u32,
    event: u32,
    count: u32,
) -> Result<(), AllocError> {
    let step = format!(in alloc; "{{\"dev\":[0,{device}],\"msi\":[8,{event}]}}")?;
    for _ in 0..count {
        push_step(input, step.as_str())?;
    }
    Ok(())
}

/// The scenario as JSON.
fn input_of(alloc: Global, row: &Row) -> Result<String, AllocError> {
    let mut input = String::from_str(alloc, GUEST)?;
    push_steps(&mut input, &SETUP)?;
    push_steps(&mut input, &OTHER_LPI)?;
    for round in 0..ROUNDS {
        push_round(alloc, &mut input, round)?;
    }
    for _ in 0..LOOKS {
        push_steps(&mut input, &ROUND_OF_1)?;
    }
    for device in 0..2 {
        push_messages(alloc, &mut input, device, NO_EVENT, row.before)?;
        push_messages(
            alloc,
            &mut input,
            device,
            row.events[device as usize],
            row.messages,
        )?;
    }
    input.push_str("]}")?;
    Ok(input)
}

/// Whether nothing is acknowledged where vCPU 1 sees the events out before and after, in one round.
fn is_kept(values: &[&str]) -> bool {
    match values {
        [before, acknowledged, after] => {
            before != after || !before.starts_with(OUT_DIGITS) || *acknowledged == NOTHING
        }
        _ => false,
    }
}

/// No LPI is acknowledged while its event is out, none more often than there were messages for it, and the run has ended.
fn check(rt: &impl Abort, alloc: Global, row: &Row, text: &str) -> Result<(), AllocError> {
    let values: Vec<&str> = text
        .lines()
        .filter_map(|line| value_of(line))
        .collect(alloc)?;
    assert!(rt;
        values.as_slice().windows(3).all(|part| is_kept(part)),
        "{text}"
    );
    assert!(rt; ending(text, FIRST_LPI) <= row.most[0], "{text}");
    assert!(rt; ending(text, SECOND_LPI) <= row.most[1], "{text}");
    assert!(rt; text.contains(MAPPED), "{text}");
    Ok(())
}

#[test]
fn messages_of_one_line(rt: HostRuntime) -> Result<(), Fail> {
    for row in ROWS {
        let input = input_of(rt.alloc(), &row)?;
        for words in WORDS {
            for _ in 0..RUNS {
                let told = call(&rt, rt.alloc(), &words, input.as_str(), &OpenGate)?;
                assert_eq!(rt; told.status, OK, "{}", told.text);
                assert_eq!(rt; told.shown.threaded, 1);
                check(&rt, rt.alloc(), &row, told.text.as_str())?;
            }
        }
    }
    Ok(())
}
