//! Commands of the ITS, which a write of GITS_CWRITER takes.
use crate::tape::Tape;
use gic_check::Verdict;
use std::alloc::{AllocError, Global};
use std::process::Abort;
use std::test::Fail;

/// One vCPU, 16 LPIs, and 8 KiB of memory.
const ONE: &str = r#"{"vcpus":1,"lpis":16,"ram":8192,"on":true}"#;

/// Two vCPUs, a device, 16 LPIs, and 64 KiB of memory.
const TWO: &str = r#"{"vcpus":2,"devices":1,"lpis":16,"ram":65536,"on":true}"#;

/// Where the queue is, and how far its places are apart.
const QUEUE: u32 = 0x1000;

const PLACE: u32 = 0x20;

/// The first three doublewords of commands; the fourth is 0. MAPD of DeviceID 8 with 5 bits of EventID.
const MAPD: [u64; 3] = [0x8_0000_0008, 4, 0x8000_0000_0000_2000];

/// MAPC of collection 1 to vCPU 0, and of collection 2 to vCPU 1.
const MAPC: [u64; 3] = [9, 0, 0x8000_0000_0000_0001];

const OTHER_MAPC: [u64; 3] = [9, 0, 0x8000_0000_0001_0002];

/// MAPTI of event 3 of DeviceID 8 to LPI 8195 in collection 1; of event 1 to LPI 8193 there, and of event 3 to LPI 8195 in collection 2.
const MAPTI: [u64; 3] = [0x8_0000_000A, 0x2003_0000_0003, 1];

const MAPTI_8193: [u64; 3] = [0x8_0000_000A, 0x2001_0000_0001, 1];

const MAPTI_8195: [u64; 3] = [0x8_0000_000A, 0x2003_0000_0003, 2];

/// The ITS is taken, and given back.
const TAKES: &str = r#""its_begin":true"#;

const GIVES_BACK: &str = r#""its_end":true"#;

/// GITS_CBASER is written, for a queue of 4096 bytes at 0x1000, and the ITS is enabled.
fn set_up(tape: &mut Tape) -> Result<(), AllocError> {
    tape.call(
        0,
        r#""gits":128,"size":8,"write":9223372036854779904"#,
        &[
            TAKES,
            r#""put":["cwriter",0]"#,
            r#""queue":[0,false]"#,
            r#""put":["cbaser",9223372036854779904]"#,
            GIVES_BACK,
        ],
    )?;
    tape.call(
        0,
        r#""gits":0,"write":1"#,
        &[TAKES, r#""put":["its_ctlr",1]"#, GIVES_BACK],
    )
}

/// MAPD is taken, of which these four doublewords are read and after which the queue is so: 31 events in all.
fn map_device(alloc: Global, reads: &[&str], queue: &str) -> Result<Tape, AllocError> {
    let mut tape = Tape::of(alloc, ONE);
    tape.store_command(QUEUE, MAPD)?;
    set_up(&mut tape)?;
    tape.begin(
        0,
        r#""gits":136,"size":8,"write":32"#,
        &[TAKES, r#""put":["cwriter",32]"#],
    )?;
    for read in reads {
        tape.push('v', 0, read)?;
    }
    for event in [queue, GIVES_BACK, r#""end":null"#] {
        tape.push('v', 0, event)?;
    }
    Ok(tape)
}

/// The reads of MAPD.
const READS: [&str; 4] = [
    r#""read":["ram:512",34359738376]"#,
    r#""read":["ram:513",4]"#,
    r#""read":["ram:514",9223372036854784000]"#,
    r#""read":["ram:515",0]"#,
];

/// That the first events can be, cut off before any of them, up to the one of this number, from 0, which cannot; or all of them.
fn expect(rt: &impl Abort, tape: &Tape, refused: Option<usize>) -> Result<(), Fail> {
    let all = tape.events.len();
    for count in 0..refused.unwrap_or(all) {
        assert_eq!(rt; tape.verdict(count)?, Verdict::Yes, "{count}");
    }
    let found = match tape.verdict(all)? {
        Verdict::No { index } => Some(index as usize),
        Verdict::Yes => None,
    };
    assert_eq!(rt; found, refused);
    Ok(())
}

#[test]
fn a_command_is_taken(rt: HostRuntime) -> Result<(), Fail> {
    let done = map_device(rt.alloc(), &READS, r#""queue":[32,false]"#)?;
    assert_eq!(rt; done.events.len(), 31);
    expect(&rt, &done, None)?;
    let too_far = map_device(rt.alloc(), &READS, r#""queue":[64,false]"#)?;
    expect(&rt, &too_far, Some(29))?;
    let stalled = map_device(rt.alloc(), &READS, r#""queue":[0,true]"#)?;
    expect(&rt, &stalled, Some(29))?;
    let unread = map_device(rt.alloc(), &READS[..3], r#""queue":[32,false]"#)?;
    expect(&rt, &unread, Some(28))
}

/// The address of a place of the queue.
fn address_of(place: u32) -> u32 {
    QUEUE.wrapping_add(PLACE.wrapping_mul(place))
}

/// The reads of a command at a place of the queue.
fn push_reads(
    tape: &mut Tape,
    alloc: Global,
    place: u32,
    words: [u64; 3],
) -> Result<(), AllocError> {
    let mut number = address_of(place) / 8;
    let [one, two, three] = words;
    for word in [one, two, three, 0].iter() {
        let read = format!(in alloc; "\"read\":[\"ram:{number}\",{word}]")?;
        tape.push('v', 0, read.as_str())?;
        number = number.wrapping_add(1);
    }
    Ok(())
}

/// A command at a place of the queue is read, and makes these events before the queue goes on.
fn push_command(
    tape: &mut Tape,
    alloc: Global,
    place: u32,
    words: [u64; 3],
    parts: &[&str],
) -> Result<(), AllocError> {
    push_reads(tape, alloc, place, words)?;
    for part in parts {
        tape.push('v', 0, part)?;
    }
    let next = PLACE.wrapping_mul(place.wrapping_add(1));
    let queue = format!(in alloc; "\"queue\":[{next},false]")?;
    tape.push('v', 0, queue.as_str())
}

/// The queue's first places hold these commands.
fn store_commands(tape: &mut Tape, commands: &[[u64; 3]]) -> Result<(), AllocError> {
    let mut address = QUEUE;
    for words in commands {
        tape.store_command(address, *words)?;
        address = address.wrapping_add(PLACE);
    }
    Ok(())
}

/// The configuration byte of LPI 8195, which is 0, and the LPI as it is mapped to a vCPU, and as its event is mapped anew.
const BYTE: &str = r#""read":["ram:0",0]"#;

const MAPS_TO_0: &str = r#""touch":["8195","map",[0,false,0],null]"#;

const MAPS_TO_1: &str = r#""touch":["8195","map",[1,false,0],null]"#;

const FORGETS: &str = r#""touch":["8195","forget",[],null]"#;

/// MAPTI of an event to an LPI, and again, where these are the parts of the second one.
fn map_again(alloc: Global, parts: &[&str]) -> Result<Tape, AllocError> {
    let mut tape = Tape::of(alloc, ONE);
    store_commands(&mut tape, &[MAPD, MAPC, MAPTI, MAPTI])?;
    set_up(&mut tape)?;
    tape.begin(
        0,
        r#""gits":136,"size":8,"write":128"#,
        &[TAKES, r#""put":["cwriter",128]"#],
    )?;
    push_command(&mut tape, alloc, 0, MAPD, &[])?;
    push_command(&mut tape, alloc, 1, MAPC, &[])?;
    push_command(&mut tape, alloc, 2, MAPTI, &[BYTE, MAPS_TO_0])?;
    push_command(&mut tape, alloc, 3, MAPTI, parts)?;
    tape.push('v', 0, GIVES_BACK)?;
    tape.push('v', 0, r#""end":null"#)?;
    Ok(tape)
}

#[test]
fn an_event_is_mapped_again(rt: HostRuntime) -> Result<(), Fail> {
    let mapped = map_again(rt.alloc(), &[FORGETS, BYTE, MAPS_TO_0])?;
    expect(&rt, &mapped, None)?;
    let before = mapped.events.len().wrapping_sub(6);
    // Not forgotten first, another vCPU, and without its second byte.
    let kept = map_again(rt.alloc(), &[BYTE, MAPS_TO_0])?;
    expect(&rt, &kept, Some(before.wrapping_add(2)))?;
    let elsewhere = map_again(rt.alloc(), &[FORGETS, BYTE, MAPS_TO_1])?;
    expect(&rt, &elsewhere, Some(before.wrapping_add(3)))?;
    let unread = map_again(rt.alloc(), &[FORGETS, MAPS_TO_0])?;
    expect(&rt, &unread, Some(before.wrapping_add(2)))
}

/// LPI 8193 is enabled and mapped to vCPU 0, whose EnableLPIs is 1, and LPI 8195 is mapped to vCPU 1, with its bit in the pending table of that.
fn map_both(alloc: Global, tape: &mut Tape) -> Result<(), AllocError> {
    tape.store(0x3000, 0xA100)?;
    tape.call(
        0,
        r#""gicr":112,"of":0,"size":8,"write":12301"#,
        &[r#""read":["lpis:0",0]"#, r#""put":["propbaser:0",12301]"#],
    )?;
    tape.call(
        0,
        r#""gicr":0,"of":0,"write":1"#,
        &[r#""enable":true"#, r#""read":["ram:128",0]"#],
    )?;
    tape.store(0x400, 8)?;
    store_commands(tape, &[MAPD, MAPC, OTHER_MAPC, MAPTI_8193, MAPTI_8195])?;
    set_up(tape)?;
    tape.begin(
        0,
        r#""gits":136,"size":8,"write":160"#,
        &[TAKES, r#""put":["cwriter",160]"#],
    )?;
    let enabled = [
        r#""read":["ram:1536",41216]"#,
        r#""touch":["8193","map",[0,true,160],null]"#,
    ];
    push_command(tape, alloc, 0, MAPD, &[])?;
    push_command(tape, alloc, 1, MAPC, &[])?;
    push_command(tape, alloc, 2, OTHER_MAPC, &[])?;
    push_command(tape, alloc, 3, MAPTI_8193, &enabled)?;
    push_command(tape, alloc, 4, MAPTI_8195, &[BYTE, MAPS_TO_1])?;
    tape.push('v', 0, GIVES_BACK)?;
    tape.push('v', 0, r#""end":null"#)
}

/// The device sends the message of LPI 8193.
fn send(tape: &mut Tape) -> Result<(), AllocError> {
    for event in [
        r#""begin":{"msi":[8,1]}"#,
        TAKES,
        r#""raise":"8193""#,
        GIVES_BACK,
        r#""end":null"#,
    ] {
        tape.push('d', 0, event)?;
    }
    Ok(())
}

#[test]
fn an_lpi_is_awaited_until_its_call_is_past_it(rt: HostRuntime) -> Result<(), Fail> {
    let mut tape = Tape::of(rt.alloc(), TWO);
    map_both(rt.alloc(), &mut tape)?;
    send(&mut tape)?;
    tape.begin(
        1,
        r#""gicr":0,"of":1,"write":1"#,
        &[r#""enable":true"#, r#""read":["ram:128",8]"#],
    )?;
    tape.begin(0, r#""icc":"IAR1""#, &[r#""cpu":["IAR1",null,1023]"#])?;
    tape.push('v', 1, r#""touch":["8195","write",["SetPending",1],null]"#)?;
    let all = tape.events.len();
    expect(&rt, &tape, Some(all))
}
