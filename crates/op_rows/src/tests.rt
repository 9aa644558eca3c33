//! Operations of two vCPUs and of a device of one guest, one after the other, and what they read.
ghost use Rattle.std.specs.Prelude.{◌≡◌, IsTrue, IfSome, None};
ghost use Rattle.gic_msi.specs.DevPort.Device.{CanCall};
ghost use Rattle.port_seq.specs.Ports.{told};
ghost use Rattle.pe_op.specs.PeLoop.Stay.{IsUp};

use gic_msi::{GuestOp, Key, MsiMiss, Port, message, msi, msi_fill, post};
use pe_op::{Loaded, Shelved, enter, guest_op, leave};
use port_rest::{
    CLEAR, DEVICE_ID, DISCARD, EVENT_ID, INV, MAPC, MAPD, MAPTI, MOVI, OTHER_MAPC, SYNC,
    command_words, is_off, is_settled, one_guest, sgi, spi,
};
use port_seq::{
    COMMAND_BYTES, Command, Frame, GuestPort, GuestShape, IccReg, Mode, Scenario, SeqPort,
    is_good_op, key_of,
};
use std::alloc::{AllocError, Global};
use std::sync::Wait;
use std::test::Fail;

mod image;

/// Two vCPUs, SPIs 32 to 991, LPIs 8192 to 8207, 64 KiB of memory, and a device.
const SHAPE: GuestShape = GuestShape {
    vcpus: 2,
    spis: 960,
    espis: 0,
    devices: 1,
    lpis: 16,
    ram: 65536,
};

/// A guest with one vCPU, SPIs 32 to 63, and a device.
const SMALL: GuestShape = GuestShape {
    vcpus: 1,
    spis: 32,
    espis: 0,
    devices: 1,
    lpis: 0,
    ram: 0,
};

/// Where the queue of the ITS is.
const QUEUE: u32 = 0x1000;

/// List registers of a PE.
const LIST_REGISTERS: u32 = 4;

/// An operation of a vCPU, with what it reads, if it reads.
type Does = (GuestOp, Option<u64>);

/// What is done in the guest.
#[derive(Clone, Copy)]
enum Act {
    /// A vCPU enters a PE, does an operation there, and leaves it.
    Vcpu(u32, Does),
    /// vCPU 0 enters a PE, stores a command at its place in the queue, and leaves it.
    Queue(u16, Command),
    /// The device sends a message of an SPI.
    Message(u32),
    /// The device sends a message of an event under a number to the ITS.
    Msi(u32, u32),
    /// It sends one of event 3 of device 8 through its translation line alone, and this comes of it.
    Post(Result<(), MsiMiss>),
    /// It sends it by the ITS, which fills the line.
    Fill,
}

fn reads(reg: IccReg, value: u64) -> Does {
    (GuestOp::Icc { reg, write: None }, Some(value))
}

fn writes(reg: IccReg, value: u64) -> Does {
    (
        GuestOp::Icc {
            reg,
            write: Some(value),
        },
        None,
    )
}

fn loads(frame: Frame, offset: u32, size: u32, value: u64) -> Does {
    (
        GuestOp::Mem {
            frame,
            offset,
            size,
            write: None,
        },
        Some(value),
    )
}

fn stores(frame: Frame, offset: u32, size: u32, value: u64) -> Does {
    (
        GuestOp::Mem {
            frame,
            offset,
            size,
            write: Some(value),
        },
        None,
    )
}

/// A guest that opens on, with the interrupts 40 and 991 and SGI 5 of both vCPUs.
fn ready(alloc: Global) -> Result<Scenario, AllocError> {
    let presets = [
        spi(40, 0xA0, true, 0),
        spi(991, 0xA0, true, 0),
        sgi(5, 0xA0, 0),
        sgi(5, 0xA0, 1),
    ];
    one_guest(alloc, SHAPE, true, &presets)
}

/// A small guest that opens off, with no interrupt that is enabled.
fn fresh(alloc: Global) -> Result<Scenario, AllocError> {
    one_guest(alloc, SMALL, false, &[])
}

/// The vCPU that is told enters a PE. None where it may not.
fn enter_told<P: Port>(port: &mut P) -> Option<Loaded>
    requires { (P.seen port.old).number ≡ 0 }
    ensures up { IfSome result (λ vcpu. IsUp (P.seen port.new) vcpu) }
    ensures guest { IfSome result (λ vcpu. (P.seen port.new).number ≡ 0) }
{
    let vcpu = port.actor();
    if vcpu >= port.shape().vcpus || !is_off(port.local_ref()) {
        return None;
    }
    let vcpu = Shelved {
        guest: 0,
        vcpu,
        cpu: port.local_ref().cpu,
        next: 0,
    };
    Some(enter(port, vcpu, LIST_REGISTERS))
}

/// The vCPU does one operation. None where it may not, or reads something else.
fn operate<P: Port, R: Wait>(rt: &R, port: &mut P, vcpu: Loaded, does: &Does) -> Option<Loaded>
    requires { IsUp (P.seen port.old) vcpu }
    ensures up { IfSome result (λ vcpu. IsUp (P.seen port.new) vcpu) }
    ensures guest { IfSome result (λ vcpu. (P.seen port.new).number ≡ (P.seen port.old).number) }
{
    let (op, read) = does;
    let shape = port.shape();
    if !(shape.is_in_range() && is_good_op(&shape, op)) {
        return None;
    }
    let mut vcpu = vcpu;
    if guest_op(rt, port, &mut vcpu, op) != *read {
        return None;
    }
    Some(vcpu)
}

/// The vCPU that is told enters a PE, does some operations, and leaves it. None where it may not, or one reads something else.
fn stay<P: Port, R: Wait>(rt: &R, port: &mut P, all: &[Does]) -> Option<()>
    requires { (P.seen port.old).number ≡ 0 }
    ensures { IfSome result (λ done. (P.seen port.new).number ≡ 0) }
{
    let mut vcpu = enter_told(port)?;
    for does in all {
        vcpu = operate(rt, port, vcpu, does)?;
    }
    leave(port, vcpu);
    Some(())
}

/// A device may make a call.
fn is_device<P: Port>(port: &P) -> bool
    ensures { IsTrue result → CanCall (P.seen port.now) }
{
    port.actor() >= port.shape().vcpus && is_settled(port.local_ref())
}

/// The device sends a message of an SPI. None where it may not.
fn send<P: Port>(port: &mut P, spi: u32) -> Option<()>
    requires { (P.seen port.old).number ≡ 0 }
    ensures { IfSome result (λ done. (P.seen port.new).number ≡ 0) }
{
    if !is_device(port) || key_of(spi, 0, &port.shape()) != Some(Key::Spi(spi)) {
        return None;
    }
    message(port, spi);
    Some(())
}

/// The device sends a message of an event under a number to the ITS. None where it may not.
fn send_event<P: Port, R: Wait>(rt: &R, port: &mut P, device: u32, event: u32) -> Option<()>
    requires { (P.seen port.old).number ≡ 0 }
    ensures { IfSome result (λ done. (P.seen port.new).number ≡ 0) }
{
    if !is_device(port) {
        return None;
    }
    msi(rt, port, device, event);
    Some(())
}

/// The device sends a message through its translation line. None where it may not, or something else comes of it.
#[tactic(auto, using(crate::proofs::PostLemmas::post_same))]
fn post_event<P: Port>(port: &mut P, outcome: Result<(), MsiMiss>) -> Option<()>
    requires { (P.seen port.old).number ≡ 0 }
    ensures { IfSome result (λ done. (P.seen port.new).number ≡ 0) }
{
    if !is_device(port) || port.shape().lpis == 0 {
        return None;
    }
    if post(port, DEVICE_ID, EVENT_ID) != outcome {
        return None;
    }
    Some(())
}

/// The device sends a message to the ITS, and fills its line. None where it may not.
fn fill_event<P: Port, R: Wait>(rt: &R, port: &mut P) -> Option<()>
    requires { (P.seen port.old).number ≡ 0 }
    ensures { IfSome result (λ done. (P.seen port.new).number ≡ 0) }
{
    if !is_device(port) {
        return None;
    }
    msi_fill(rt, port, DEVICE_ID, EVENT_ID);
    Some(())
}

/// Tells an actor of the guest: a vCPU, or the device after them. None where there is none.
fn tell(guest: &mut GuestPort, actor: u32) -> Option<()>
    ensures { (told guest.new).number ≡ (told guest.old).number }
{
    if actor > guest.shape().vcpus || guest.shape().devices == 0 {
        return None;
    }
    guest.set_actor(actor);
    Some(())
}

/// The vCPU that is told enters a PE, stores a command at its place in the queue, and leaves it. None where it may not.
fn store_command<R: Wait>(
    rt: &R,
    guest: &mut GuestPort,
    place: u16,
    command: &Command,
) -> Option<()>
    requires { (told guest.old).number ≡ 0 }
    ensures { IfSome result (λ done. (told guest.new).number ≡ 0) }
{
    let [first, second, third, fourth] = command_words(command)?;
    let address = QUEUE + COMMAND_BYTES * u32::from(place);
    stay(
        rt,
        guest,
        &[
            stores(Ram, address, 8, first),
            stores(Ram, address + 8, 8, second),
            stores(Ram, address + 16, 8, third),
            stores(Ram, address + 24, 8, fourth),
        ],
    )
}

/// Does one act. None where the actor may not, or reads something else.
fn perform<R: Wait>(rt: &R, guest: &mut GuestPort, act: &Act) -> Option<()>
    requires { (told guest.old).number ≡ 0 }
    ensures { IfSome result (λ done. (told guest.new).number ≡ 0) }
{
    let device = guest.shape().vcpus;
    match act {
        Act::Vcpu(vcpu, does) => {
            tell(guest, *vcpu)?;
            stay(rt, guest, &[*does])
        }
        Act::Queue(place, command) => {
            tell(guest, 0)?;
            store_command(rt, guest, *place, command)
        }
        Act::Message(spi) => {
            tell(guest, device)?;
            send(guest, *spi)
        }
        Act::Msi(number, event) => {
            tell(guest, device)?;
            send_event(rt, guest, *number, *event)
        }
        Act::Post(outcome) => {
            tell(guest, device)?;
            post_event(guest, *outcome)
        }
        Act::Fill => {
            tell(guest, device)?;
            fill_event(rt, guest)
        }
    }
}

/// Does acts, one after the other: the number of the first that does not go as it is to, if one does not.
fn first_other<R: Wait>(rt: &R, guest: &mut GuestPort, acts: &[Act]) -> Option<usize>
    requires { (told guest.old).number ≡ 0 }
    ensures { result ≡ None → (told guest.new).number ≡ 0 }
{
    for (number, act) in acts.iter().enumerate() {
        if perform(rt, guest, act).is_none() {
            return Some(number);
        }
    }
    None
}

/// The first act that does otherwise, in a guest that just opened; the number of the acts where it can't be made.
fn play<R: Wait>(
    rt: &R,
    alloc: Global,
    scenario: Scenario,
    acts: &[Act],
) -> Result<Option<usize>, AllocError> {
    if !scenario.is_good(alloc, Mode::Threads)? {
        return Ok(Some(acts.len()));
    }
    let mut port = SeqPort::start(alloc, &scenario)?;
    Ok(first_other(rt, port.current_mut(), acts))
}

/// The first act that does otherwise, of acts that go on after others in one guest.
fn play_both<R: Wait>(
    rt: &R,
    alloc: Global,
    scenario: Scenario,
    early: &[Act],
    late: &[Act],
) -> Result<Option<usize>, AllocError> {
    if !scenario.is_good(alloc, Mode::Threads)? {
        return Ok(Some(early.len()));
    }
    let mut port = SeqPort::start(alloc, &scenario)?;
    let guest = port.current_mut();
    match first_other(rt, guest, early) {
        None => Ok(first_other(rt, guest, late)),
        other => Ok(other),
    }
}

use Act::{Fill, Message, Msi, Post, Queue, Vcpu};
use Frame::{Dist, Its, Ram, Redist};
use IccReg::{Bpr1, Ctlr, Eoir1, Hppir1, Iar1, Igrpen1, Pmr, Rpr, Sgi1r, Sre};

/// What a read of IAR or HPPIR answers where there is no interrupt.
const NONE: u64 = 1023;

/// The redistributors of vCPU 0 and of vCPU 1.
const MINE: Frame = Redist { vcpu: 0 };

const OTHER: Frame = Redist { vcpu: 1 };

#[test]
fn accesses_withdraw_and_route(rt: HostRuntime) -> Result<(), Fail> {
    let rows: [&[Act]; 3] = [
        // vCPU 1 clears what was at the interface of vCPU 0.
        &[
            Message(40),
            Vcpu(0, reads(Hppir1, 40)),
            Vcpu(1, stores(Dist, 0x284, 4, 0x100)),
            Vcpu(0, reads(Iar1, NONE)),
        ],
        // It routes it to itself.
        &[
            Message(40),
            Vcpu(0, reads(Hppir1, 40)),
            Vcpu(1, stores(Dist, 0x6140, 8, 1)),
            Vcpu(0, reads(Iar1, NONE)),
            Vcpu(1, reads(Iar1, 40)),
        ],
        // The last SPI.
        &[Message(991), Vcpu(0, reads(Iar1, 991))],
    ];
    for acts in rows {
        assert_eq!(rt; play(&rt, rt.alloc(), ready(rt.alloc())?, acts)?, None);
    }
    Ok(())
}

#[test]
fn sgis_of_another(rt: HostRuntime) -> Result<(), Fail> {
    let rows: [&[Act]; 3] = [
        // To the other vCPU, to itself, and to all but itself.
        &[
            Vcpu(0, writes(Sgi1r, 0x0500_0002)),
            Vcpu(1, reads(Iar1, 5)),
            Vcpu(0, reads(Iar1, NONE)),
        ],
        &[
            Vcpu(0, writes(Sgi1r, 0x0500_0001)),
            Vcpu(0, reads(Iar1, 5)),
            Vcpu(1, reads(Iar1, NONE)),
        ],
        &[
            Vcpu(0, writes(Sgi1r, 0x0000_0100_0500_0000)),
            Vcpu(1, reads(Iar1, 5)),
            Vcpu(0, reads(Iar1, NONE)),
        ],
    ];
    for acts in rows {
        assert_eq!(rt; play(&rt, rt.alloc(), ready(rt.alloc())?, acts)?, None);
    }
    Ok(())
}

/// An LPI's set-up, from its configuration byte to the end of the commands that map it, of which GITS_CREADR tells.
fn set_up(byte: u64) -> [Act; 12] {
    [
        Vcpu(0, stores(Ram, 0x3003, 1, byte)),
        Vcpu(0, stores(OTHER, 0x70, 8, 0x300D)),
        Vcpu(0, stores(OTHER, 0x78, 8, 0x4000_0000_0001_0000)),
        Vcpu(0, stores(OTHER, 0x0, 4, 1)),
        Vcpu(0, stores(Its, 0x80, 8, 0x8000_0000_0000_1000)),
        Vcpu(0, stores(Its, 0x0, 4, 1)),
        Queue(0, MAPD),
        Queue(1, MAPC),
        Queue(2, MAPTI),
        Queue(3, SYNC),
        Vcpu(0, stores(Its, 0x88, 8, 0x80)),
        Vcpu(0, loads(Its, 0x90, 8, 0x80)),
    ]
}

#[test]
fn lpi_of_a_device(rt: HostRuntime) -> Result<(), Fail> {
    let taken = [
        Msi(DEVICE_ID, EVENT_ID),
        Vcpu(1, reads(Iar1, 8195)),
        Vcpu(1, writes(Eoir1, 8195)),
        Vcpu(1, reads(Iar1, NONE)),
    ];
    for byte in [0xA1, 0xA3] {
        let first = set_up(byte);
        assert_eq!(rt;
            play_both(
                &rt,
                rt.alloc(),
                ready(rt.alloc())?,
                first.as_slice(),
                taken.as_slice()
            )?,
            None
        );
    }
    Ok(())
}

#[test]
fn lpi_that_moves_or_goes(rt: HostRuntime) -> Result<(), Fail> {
    let first = set_up(0xA1);
    let rows: [&[Act]; 3] = [
        // vCPU 0 gets tables as vCPU 1 has; then MAPC of collection 2 to vCPU 0, and MOVI of the event to it.
        &[
            Vcpu(0, stores(MINE, 0x70, 8, 0x300D)),
            Vcpu(0, stores(MINE, 0x78, 8, 0x4000_0000_0001_0000)),
            Vcpu(0, stores(MINE, 0x0, 4, 1)),
            Msi(DEVICE_ID, EVENT_ID),
            Queue(4, OTHER_MAPC),
            Queue(5, MOVI),
            Vcpu(0, stores(Its, 0x88, 8, 0xC0)),
            Vcpu(1, reads(Iar1, NONE)),
            Vcpu(0, reads(Iar1, 8195)),
        ],
        // CLEAR.
        &[
            Msi(DEVICE_ID, EVENT_ID),
            Queue(4, CLEAR),
            Vcpu(0, stores(Its, 0x88, 8, 0xA0)),
            Vcpu(1, reads(Iar1, NONE)),
        ],
        // DISCARD.
        &[
            Msi(DEVICE_ID, EVENT_ID),
            Queue(4, DISCARD),
            Vcpu(0, stores(Its, 0x88, 8, 0xA0)),
            Msi(DEVICE_ID, EVENT_ID),
            Vcpu(1, reads(Iar1, NONE)),
        ],
    ];
    for acts in rows {
        let scenario = ready(rt.alloc())?;
        let other = play_both(&rt, rt.alloc(), scenario, first.as_slice(), acts)?;
        assert_eq!(rt; other, None);
    }
    Ok(())
}

/// What comes of a message through its line: the line has it, or is empty.
const SENT: Act = Post(Ok(()));

const MISSED: Act = Post(Err(MsiMiss::NoLine { found: 0 }));

#[test]
fn lpi_by_its_line(rt: HostRuntime) -> Result<(), Fail> {
    let first = set_up(0xA1);
    let rows: [&[Act]; 2] = [
        // Each message is acknowledged once, whichever way it went; after the DISCARD none is.
        &[
            MISSED,
            Vcpu(1, reads(Iar1, NONE)),
            Fill,
            Vcpu(1, reads(Iar1, 8195)),
            Vcpu(1, writes(Eoir1, 8195)),
            SENT,
            Vcpu(1, reads(Iar1, 8195)),
            Vcpu(1, writes(Eoir1, 8195)),
            Vcpu(1, reads(Iar1, NONE)),
            Queue(4, DISCARD),
            Vcpu(0, stores(Its, 0x88, 8, 0xA0)),
            MISSED,
            Vcpu(1, reads(Iar1, NONE)),
        ],
        // vCPU 0 gets tables as vCPU 1 has; then the event moves to it, which empties the line.
        &[
            Vcpu(0, stores(MINE, 0x70, 8, 0x300D)),
            Vcpu(0, stores(MINE, 0x78, 8, 0x4000_0000_0001_0000)),
            Vcpu(0, stores(MINE, 0x0, 4, 1)),
            Fill,
            Queue(4, OTHER_MAPC),
            Queue(5, MOVI),
            Vcpu(0, stores(Its, 0x88, 8, 0xC0)),
            MISSED,
            Fill,
            Vcpu(1, reads(Iar1, NONE)),
            Vcpu(0, reads(Iar1, 8195)),
            Vcpu(0, writes(Eoir1, 8195)),
            SENT,
            Vcpu(0, reads(Iar1, 8195)),
        ],
    ];
    for acts in rows {
        let scenario = ready(rt.alloc())?;
        let other = play_both(&rt, rt.alloc(), scenario, first.as_slice(), acts)?;
        assert_eq!(rt; other, None);
    }
    Ok(())
}

#[test]
fn lpi_with_another_priority(rt: HostRuntime) -> Result<(), Fail> {
    let first = set_up(0xA1);
    // The byte counts from INV on, with the SYNC behind it.
    let read_anew = [
        Vcpu(0, stores(Ram, 0x3003, 1, 0x41)),
        Msi(DEVICE_ID, EVENT_ID),
        Vcpu(1, reads(Iar1, 8195)),
        Vcpu(1, reads(Rpr, 0xA0)),
        Vcpu(1, writes(Eoir1, 8195)),
        Queue(4, INV),
        Queue(5, SYNC),
        Vcpu(0, stores(Its, 0x88, 8, 0xC0)),
        Msi(DEVICE_ID, EVENT_ID),
        Vcpu(1, reads(Iar1, 8195)),
        Vcpu(1, reads(Rpr, 0x40)),
    ];
    assert_eq!(rt;
        play_both(
            &rt,
            rt.alloc(),
            ready(rt.alloc())?,
            first.as_slice(),
            read_anew.as_slice()
        )?,
        None
    );
    Ok(())
}

#[test]
fn start_of_a_driver(rt: HostRuntime) -> Result<(), Fail> {
    let acts = [
        Vcpu(0, stores(Dist, 0x0, 4, 0)),
        Vcpu(0, stores(Dist, 0x84, 4, 0xFFFF_FFFF)),
        Vcpu(0, stores(Dist, 0x428, 4, 0xA0A0_A0A0)),
        Vcpu(0, stores(Dist, 0x384, 4, 0xFFFF_FFFF)),
        Vcpu(0, stores(Dist, 0x184, 4, 0xFFFF_FFFF)),
        Vcpu(0, stores(Dist, 0x0, 4, 0x13)),
        Vcpu(0, loads(Dist, 0x0, 4, 0x53)),
        Vcpu(0, stores(Dist, 0x6140, 8, 0)),
        Vcpu(0, reads(Sre, 7)),
        Vcpu(0, writes(Pmr, 0xF0)),
        Vcpu(0, writes(Bpr1, 0)),
        Vcpu(0, reads(Bpr1, 3)),
        Vcpu(0, writes(Ctlr, 0)),
        Vcpu(0, writes(Igrpen1, 1)),
        Vcpu(0, stores(Dist, 0xC08, 4, 0x20000)),
        Vcpu(0, stores(Dist, 0x104, 4, 0x100)),
        Vcpu(0, loads(Dist, 0x4, 4, 0x669_0001)),
        Message(40),
        Vcpu(0, reads(Iar1, 40)),
    ];
    assert_eq!(rt;
        play(&rt, rt.alloc(), fresh(rt.alloc())?, acts.as_slice())?,
        None
    );
    Ok(())
}

/// A message of interrupt 40, and then a stay of vCPU 0 on its PE: whether all was read so.
fn stays<R: Wait>(rt: &R, alloc: Global, all: &[Does]) -> Result<bool, AllocError> {
    let scenario = ready(alloc)?;
    if !scenario.is_good(alloc, Mode::Threads)? {
        return Ok(false);
    }
    let mut port = SeqPort::start(alloc, &scenario)?;
    let guest = port.current_mut();
    if perform(rt, guest, &Message(40)).is_none() || tell(guest, 0).is_none() {
        return Ok(false);
    }
    Ok(stay(rt, guest, all).is_some())
}

#[test]
fn stay_with_an_interrupt(rt: HostRuntime) -> Result<(), Fail> {
    let rows: [&[Does]; 2] = [
        // What stands at the interface is given back before the vCPU's own access, and taken again after it.
        &[
            reads(Hppir1, 40),
            stores(Dist, 0x284, 4, 0x100),
            reads(Hppir1, NONE),
            stores(Dist, 0x204, 4, 0x100),
            reads(Hppir1, 40),
        ],
        // An active interrupt is found active in the distributor, and ended after it.
        &[
            reads(Iar1, 40),
            loads(Dist, 0x304, 4, 0x100),
            reads(Rpr, 0xA0),
            stores(Ram, 0x10, 8, 7),
            loads(Ram, 0x10, 8, 7),
            writes(Eoir1, 40),
            reads(Rpr, 0xFF),
            loads(Dist, 0x304, 4, 0),
        ],
    ];
    for all in rows {
        assert!(rt; stays(&rt, rt.alloc(), all)?);
    }
    Ok(())
}

#[test]
fn stay_with_its_own_changes(rt: HostRuntime) -> Result<(), Fail> {
    let rows: [&[Does]; 2] = [
        // ISPENDR and ICPENDR: what reads pending is withdrawn.
        &[
            loads(Dist, 0x204, 4, 0x100),
            stores(Dist, 0x284, 4, 0x100),
            loads(Dist, 0x204, 4, 0),
            reads(Iar1, NONE),
        ],
        // ISACTIVER and ICACTIVER: an interrupt that is active is not taken.
        &[
            stores(Dist, 0x304, 4, 0x100),
            reads(Iar1, NONE),
            stores(Dist, 0x384, 4, 0x100),
            reads(Iar1, 40),
        ],
    ];
    for all in rows {
        assert!(rt; stays(&rt, rt.alloc(), all)?);
    }
    Ok(())
}

#[test]
fn disabled_while_active(rt: HostRuntime) -> Result<(), Fail> {
    let acts = [
        Message(40),
        Vcpu(0, reads(Iar1, 40)),
        Message(40),
        Vcpu(0, stores(Dist, 0x184, 4, 0x100)),
        Vcpu(0, writes(Eoir1, 40)),
        Vcpu(0, reads(Iar1, NONE)),
    ];
    assert_eq!(rt;
        play(&rt, rt.alloc(), ready(rt.alloc())?, acts.as_slice())?,
        None
    );
    Ok(())
}
