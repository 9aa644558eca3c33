//! Runs of a guest's two vCPUs and two devices, each step of which is written into a trace: the checker accepts each trace, and refuses it
//! where an answer in it is another.
ghost use Rattle.std.specs.Prelude.{◌≡◌, map, length};
ghost use Rattle.port_table.specs.All.{told_words, told_root};
ghost use Rattle.port_table.specs.Told.{AreRoots, opening_root, words_at};

use crate::guest::{Seat, device_goes, vcpu_goes};
use crate::noting::{Notes, Noting};
use gic_check::{Verdict, check, read_trace};
use gic_msi::{DeviceOp, GuestOp, Port};
use gic_soak::{Step, generate};
use port_rest::{DEVICE_ID, EVENT_ID, MAPC, MAPD, MAPTI, SYNC, command_words, one_guest, spi};
use port_seq::{Actor, COMMAND_BYTES, Command, Frame, GuestShape, IccReg, Mode, Scenario};
use port_table::{RootSeat, SharedWords, split, start};
use serde_json::Value;
use std::alloc::{AllocError, Global};
use std::process::Abort;
use std::sync::Wait;
use std::test::Fail;

/// Two vCPUs, SPIs 32 to 63, two devices, 16 LPIs, and 64 KiB of memory.
const SHAPE: GuestShape = GuestShape {
    vcpus: 2,
    spis: 32,
    espis: 0,
    devices: 2,
    lpis: 16,
    ram: 65536,
};

/// The same as JSON, with the presets of `scenario`.
const GUEST: &str =
    r#"{"vcpus":2,"spis":32,"devices":2,"lpis":16,"ram":65536,"on":true,"irqs":[{"id":32,"edge":true,"prio":64},{"id":37,"edge":true,"prio":104,"to":1},{"id":44,"edge":true,"prio":160},{"id":51,"edge":true,"prio":160,"to":1},{"id":63,"edge":true,"prio":184}]}"#;

/// The SPIs of the presets.
const SPIS: [u32; 5] = [32, 37, 44, 51, 63];

/// Drawn runs, and the steps of each.
const RUNS: u32 = 50;

const STEPS: u32 = 24;

/// A message comes before one of so many steps of an operation.
const SPREAD: u32 = 23;

/// Where the queue of the ITS is, and GITS_CBASER for it: 4096 bytes.
const QUEUE: u32 = 0x1000;

const CBASER: u64 = 0x8000_0000_0000_1000;

/// GICR_PROPBASER and GICR_PENDBASER of the second vCPU: the configuration bytes are at 0x3000.
const PROPBASER: u64 = 0x300D;

const PENDBASER: u64 = 0x4000_0000_0001_0000;

/// What an actor does.
#[derive(Clone, Copy)]
enum Does {
    Vcpu(u32, GuestOp),
    Device(DeviceOp),
}

/// A guest that opens on, with five SPIs.
fn scenario(alloc: Global) -> Result<Scenario, AllocError> {
    let presets = [
        spi(32, 64, true, 0),
        spi(37, 104, true, 1),
        spi(44, 160, true, 0),
        spi(51, 160, true, 1),
        spi(63, 184, true, 0),
    ];
    one_guest(alloc, SHAPE, true, &presets)
}

/// A message of one of the SPIs.
fn message_of(number: u32) -> DeviceOp {
    DeviceOp::Message {
        spi: SPIS[number as usize % SPIS.len()],
    }
}

/// A vCPU does an operation; before one of its steps its device sends a message, every second time. Whether it may.
fn vcpu_does<P: Port, Q: Port, R: Wait>(
    rt: &R,
    alloc: Global,
    seat: &mut Seat<'_, P, Q, R>,
    number: u32,
    op: &GuestOp,
) -> bool
    requires { (P.seen seat.old.vcpu.port).number ≡ 0 }
    ensures { (P.seen seat.new.vcpu.port).number ≡ 0 }
{
    seat.left = number % SPREAD;
    seat.sends = (number % 2 == 0).then_some(message_of(number / 2));
    vcpu_goes(rt, alloc, seat, op)
}

/// The actors do one thing, and all that is noted of it is taken over. Whether they may.
fn go<P: Port, R: Wait>(
    rt: &R,
    alloc: Global,
    first: &mut Seat<'_, P, P, R>,
    second: &mut Seat<'_, P, P, R>,
    notes: &mut Notes,
    number: u32,
    does: &Does,
) -> bool
    requires first { (P.seen first.old.vcpu.port).number ≡ 0 }
    requires second { (P.seen second.old.vcpu.port).number ≡ 0 }
    ensures first { (P.seen first.new.vcpu.port).number ≡ 0 }
    ensures second { (P.seen second.new.vcpu.port).number ≡ 0 }
{
    match does {
        Does::Vcpu(0, op) => {
            let goes = vcpu_does(rt, alloc, first, number, op);
            notes.append(&mut first.vcpu.notes);
            goes
        }
        Does::Vcpu(_, op) => {
            let goes = vcpu_does(rt, alloc, second, number, op);
            notes.append(&mut second.vcpu.notes);
            goes
        }
        Does::Device(op) => {
            let goes = device_goes(rt, alloc, &mut first.device, op);
            notes.append(&mut first.device.notes);
            goes
        }
    }
}

/// The actors do all this, one thing after the other: all that is noted of it. None where one may not.
fn go_over<P: Port, R: Wait>(
    rt: &R,
    alloc: Global,
    first: &mut Seat<'_, P, P, R>,
    second: &mut Seat<'_, P, P, R>,
    seed: u32,
    all: &[Does],
) -> Option<Notes>
    requires first { (P.seen first.old.vcpu.port).number ≡ 0 }
    requires second { (P.seen second.old.vcpu.port).number ≡ 0 }
{
    let mut notes = Notes::new(alloc);
    let mut drawn = seed;
    for does in all {
        if !go(rt, alloc, first, second, &mut notes, drawn, does) {
            return None;
        }
        drawn = drawn.wrapping_add(7);
    }
    (!notes.is_short).then_some(notes)
}

/// A vCPU's seat, with a device.
macro_rules! seat {
    ($rt:ident, $alloc:ident, $words:ident, $root:ident, $number:literal) => {
        Seat {
            vcpu: Noting::of(
                $alloc,
                split(
                    $words,
                    &mut $root,
                    Actor::Vcpu {
                        guest: 0,
                        vcpu: $number,
                    },
                ),
            ),
            device: Noting::of(
                $alloc,
                split(
                    $words,
                    &mut $root,
                    Actor::Device {
                        guest: 0,
                        device: $number,
                    },
                ),
            ),
            rt: $rt,
            alloc: $alloc,
            left: 0,
            sends: None,
        }
    };
}

/// What is noted of all this in a guest that just opened.
fn record<R: Wait>(
    rt: &R,
    alloc: Global,
    words: &SharedWords,
    root: RootSeat,
    seed: u32,
    all: &[Does],
) -> Option<Notes>
    requires one { length (told_words words.now) ≡ 1 }
    requires vcpus { (words_at (told_words words.now) 0).guest.shape.vcpus ≡ 2 }
    requires devices { (words_at (told_words words.now) 0).guest.shape.devices ≡ 2 }
    requires number { (words_at (told_words words.now) 0).number ≡ 0 }
    requires roots { AreRoots (told_words words.now) (told_root root) }
    requires fresh { told_root root ≡ map opening_root (told_words words.now) }
{
    let mut root = root;
    let mut first = seat!(rt, alloc, words, root, 0);
    let mut second = seat!(rt, alloc, words, root, 1);
    go_over(rt, alloc, &mut first, &mut second, seed, all)
}

/// The same, with the guest.
fn recorded<R: Wait>(
    rt: &R,
    alloc: Global,
    seed: u32,
    all: &[Does],
) -> Result<Option<Notes>, AllocError> {
    let scenario = scenario(alloc)?;
    let guests = scenario.guests.as_slice();
    if guests.len() != 1 || guests[0].shape != SHAPE || !scenario.is_good(alloc, Mode::Threads)? {
        return Ok(None);
    }
    let (words, root) = start(alloc, &scenario)?;
    Ok(record(rt, alloc, &words, root, seed, all))
}

/// The text of a trace with these events.
fn text_of(alloc: Global, events: &[String]) -> Result<String, AllocError> {
    let mut text = format!(in alloc; "{{\"guest\":{GUEST},\"events\":[")?;
    for (index, event) in events.iter().enumerate() {
        if index > 0 {
            text.push(',')?;
        }
        text.push_str(event.as_str())?;
    }
    text.push_str("]}")?;
    Ok(text)
}

/// The verdict on these events.
fn verdict_on(alloc: Global, events: &[String]) -> Result<Verdict, Fail> {
    let text = text_of(alloc, events)?;
    let value = Value::from_str(alloc, text.as_str())?;
    match read_trace(alloc, &value) {
        Ok(trace) => Ok(check(alloc, &trace)?),
        Err(_) => Err(Fail::from("not read")),
    }
}

/// What an acknowledge that finds nothing answers, and another answer.
const FINDS_NOTHING: &str = r#""cpu":["IAR1",null,1023]}"#;

const FINDS_44: &str = r#""cpu":["IAR1",null,44]}"#;

/// The first event that finds nothing, from 0, where another answer stands in its place.
fn mistaken(alloc: Global, events: &mut [String]) -> Result<Option<u32>, AllocError> {
    for index in 0..events.len() {
        if let Some(begins) = events[index].strip_suffix(FINDS_NOTHING) {
            events[index] = format!(in alloc; "{begins}{FINDS_44}")?;
            return Ok(u32::try_from(index).ok());
        }
    }
    Ok(None)
}

/// That a trace is accepted, and refused where an acknowledge of it that finds nothing answers 44.
fn expect(rt: &impl Abort, alloc: Global, notes: Option<Notes>) -> Result<(), Fail> {
    let Some(mut notes) = notes else {
        return Err(Fail::from("not recorded"));
    };
    let verdict = verdict_on(alloc, notes.events.as_slice())?;
    assert_eq!(rt; verdict, Verdict::Yes);
    if let Some(index) = mistaken(alloc, notes.events.as_mut_slice())? {
        let verdict = verdict_on(alloc, notes.events.as_slice())?;
        assert_eq!(rt;
            verdict,
            Verdict::No {
                index: index.wrapping_add(1)
            }
        );
    }
    Ok(())
}

/// The steps of a drawn scenario, but that each device's is by the first.
fn drawn(alloc: Global, number: u64) -> Result<Vec<Does>, Fail> {
    let scenario = generate(alloc, number, STEPS)?;
    let mut all = Vec::new(alloc);
    for step in scenario.steps.as_slice() {
        match *step {
            Step::Vcpu { vcpu, op, .. } => all.push(Does::Vcpu(vcpu, op))?,
            Step::Device { op, .. } => all.push(Does::Device(op))?,
            Step::Pe { .. } => {}
        }
    }
    Ok(all)
}

#[test]
fn drawn_runs_can_be(rt: HostRuntime) -> Result<(), Fail> {
    for number in 0..RUNS {
        let all = drawn(rt.alloc(), u64::from(number))?;
        let notes = recorded(&rt, rt.alloc(), number, all.as_slice())?;
        expect(&rt, rt.alloc(), notes)?;
    }
    Ok(())
}

/// vCPU 0 stores a value in a frame.
fn stores(frame: Frame, offset: u32, size: u32, value: u64) -> Does {
    Does::Vcpu(
        0,
        GuestOp::Mem {
            frame,
            offset,
            size,
            write: Some(value),
        },
    )
}

/// It stores a command at an address.
fn push_command(all: &mut Vec<Does>, address: u32, command: &Command) -> Result<(), Fail> {
    let Some(words) = command_words(command) else {
        return Err(Fail::from("no command"));
    };
    let mut address = address;
    for word in words.iter() {
        all.push(stores(Frame::Ram, address, 8, *word))?;
        address = address.wrapping_add(8);
    }
    Ok(())
}

/// The second vCPU reads a register of its CPU interface, or writes it.
fn accesses(reg: IccReg, write: Option<u64>) -> Does {
    Does::Vcpu(1, GuestOp::Icc { reg, write })
}

/// LPI 8195 is mapped to the second vCPU, sent twice, and acknowledged between.
fn mapped_and_sent(alloc: Global) -> Result<Vec<Does>, Fail> {
    let second = Frame::Redist { vcpu: 1 };
    let sent = Does::Device(DeviceOp::Msi {
        device: DEVICE_ID,
        event: EVENT_ID,
    });
    let mut all = Vec::new(alloc);
    for store in [
        stores(Frame::Ram, 0x3003, 1, 0xA1),
        stores(second, 0x70, 8, PROPBASER),
        stores(second, 0x78, 8, PENDBASER),
        stores(second, 0x0, 4, 1),
        stores(Frame::Its, 0x80, 8, CBASER),
        stores(Frame::Its, 0x0, 4, 1),
    ] {
        all.push(store)?;
    }
    let mut address = QUEUE;
    for command in [MAPD, MAPC, MAPTI, SYNC].iter() {
        push_command(&mut all, address, command)?;
        address = address.wrapping_add(COMMAND_BYTES);
    }
    for does in [
        stores(Frame::Its, 0x88, 8, 0x80),
        sent,
        accesses(IccReg::Iar1, None),
        sent,
        accesses(IccReg::Eoir1, Some(8195)),
        accesses(IccReg::Iar1, None),
        accesses(IccReg::Iar1, None),
    ] {
        all.push(does)?;
    }
    Ok(all)
}

#[test]
fn commands_and_messages_can_be(rt: HostRuntime) -> Result<(), Fail> {
    let all = mapped_and_sent(rt.alloc())?;
    for seed in 0..SPREAD {
        let notes = recorded(&rt, rt.alloc(), seed, all.as_slice())?;
        expect(&rt, rt.alloc(), notes)?;
    }
    Ok(())
}
