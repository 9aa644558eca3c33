//! A guest that opens as no scenario's does: level 31 is active with nothing active, a line is up that no device moves, and its
//! queue runs with a command left in it. What it does then it does as the ideal controller, that opens so too.
ghost use Rattle.std.specs.Prelude.{◌≡◌, ◌<◌, IsTrue, IfOk, IfSome};
ghost use Rattle.gic_msi.specs.Words.{has_interrupt, Spi};
ghost use Rattle.port_seq.specs.Calls.{IsGoodGuest, has_plain, is_stored};
ghost use Rattle.port_seq.specs.IdealGuests.CanOpen.{CanOpen};
ghost use Rattle.port_seq.specs.IdealGuests.Sound.{IsSound};
ghost use Rattle.port_seq.specs.Ports.{told};

use super::{Does, loads, reads, stay, stores, writes};
use gic_msi::Key;
use port_rest::{one_guest, spi};
use port_seq::{
    Answer, DeviceOp, Frame, GuestPort, GuestShape, GuestSpec, IccReg, IdealGuest, Mode, PlainWord,
    SeqPort, is_good_op, key_of, place_of_plain,
};
use std::alloc::{AllocError, Global};
use std::sync::Wait;
use std::test::Fail;

/// One vCPU, SPIs 32 to 63, LPIs 8192 to 8207, 64 KiB of memory, and no device.
const SHAPE: GuestShape = GuestShape {
    vcpus: 1,
    spis: 32,
    espis: 0,
    devices: 0,
    lpis: 16,
    ram: 65536,
};

/// The least that a queue has, in bytes, and the bytes of a command.
const LEAST_QUEUE: u64 = 4096;

const COMMAND: u64 = 32;

/// A level of group 1 is active at a vCPU's interface, and no other.
fn make_active(guest: &mut IdealGuest, vcpu: u32, level: u32)
    requires good { CanOpen guest.old }
    requires there { vcpu < guest.old.shape.vcpus }
    requires level { level < 32 }
    ensures good { CanOpen guest.new }
    ensures shape { guest.new.shape ≡ guest.old.shape }
{
    let mut cpu = guest.cpu(vcpu);
    cpu.ap1 = 1 << level;
    guest.cpus.set(vcpu as usize, cpu);
}

/// The line of an SPI is up.
fn raise_line(guest: &mut IdealGuest, id: u32)
    requires good { CanOpen guest.old }
    requires there { IsTrue (has_interrupt guest.old.shape (Spi id)) }
    ensures good { CanOpen guest.new }
    ensures shape { guest.new.shape ≡ guest.old.shape }
{
    guest.receive(DeviceOp::Wire {
        key: Key::Spi(id),
        up: true,
    });
}

/// Stores a plain word. Whether the guest can open so: its queue is in order.
fn put_word(guest: &mut IdealGuest, word: PlainWord, value: u64) -> bool
    requires good { CanOpen guest.old }
    requires there { IsTrue (has_plain guest.old.shape word) }
    requires stored { IsTrue (is_stored word) }
    ensures good { IsTrue result → CanOpen guest.new }
    ensures shape { guest.new.shape ≡ guest.old.shape }
{
    let place = place_of_plain(word, &guest.shape);
    guest.words.set(place, value);
    let writer = guest.word(PlainWord::Cwriter);
    u64::from(guest.offset) < LEAST_QUEUE
        && writer < LEAST_QUEUE
        && writer % COMMAND == 0
        && guest.word(PlainWord::Fault) == 0
}

/// The SPI whose line is up, and the doubleword of memory at which the queue is.
const LINE: u32 = 40;

const QUEUE: u32 = 512;

/// SYNC, in the first doubleword of a command.
const SYNC: u64 = 5;

/// A scenario's guest as it opens.
fn opened(alloc: Global, guest: &GuestSpec) -> Result<IdealGuest, AllocError>
    requires { IsGoodGuest guest.now }
    ensures { IfOk result CanOpen }
{
    IdealGuest::open(alloc, guest)
}

/// The guest. None where it can't open so.
fn image(alloc: Global) -> Result<Option<IdealGuest>, AllocError>
    ensures { IfOk result (λ guest. IfSome guest CanOpen) }
{
    let scenario = one_guest(alloc, SHAPE, true, &[spi(LINE, 0x50, false, 0)])?;
    if !scenario.is_good(alloc, Mode::Threads)? {
        return Ok(None);
    }
    let mut guest = opened(alloc, &scenario.guests.as_slice()[0])?;
    make_active(&mut guest, 0, 31);
    if key_of(LINE, 0, &guest.shape) != Some(Key::Spi(LINE)) {
        return Ok(None);
    }
    raise_line(&mut guest, LINE);
    if guest.shape.ram / 8 <= QUEUE {
        return Ok(None);
    }
    if !put_word(&mut guest, PlainWord::Ram { index: QUEUE }, SYNC)
        || !put_word(&mut guest, PlainWord::Cbaser, 0x8000_0000_0000_1000)
        || !put_word(&mut guest, PlainWord::ItsCtlr, 1)
        || !put_word(&mut guest, PlainWord::Cwriter, COMMAND)
    {
        return Ok(None);
    }
    Ok(Some(guest))
}

/// What an operation of the ideal controller read, if it read.
fn value_of(answer: Answer) -> Option<u64> {
    match answer {
        Answer::Value(value) => Some(value),
        _ => None,
    }
}

/// Does operations of vCPU 0 over the port and under the ideal controller: the number of the first that reads in one of them
/// something else than it is to, if one does.
fn first_other<R: Wait>(
    rt: &R,
    port: &mut GuestPort,
    ideal: &mut IdealGuest,
    all: &[Does],
) -> Option<usize>
    requires number { (told port.old).number ≡ 0 }
    requires sound { IsSound ideal.old }
{
    for (number, does) in all.iter().enumerate() {
        let (op, read) = *does;
        if !ideal.shape.is_in_range() || !is_good_op(&ideal.shape, &op) {
            return Some(number);
        }
        if value_of(ideal.operate(0, op)) != read || stay(rt, port, &[*does]).is_none() {
            return Some(number);
        }
    }
    None
}

use Frame::Its;
use IccReg::{Eoir1, Hppir1, Iar1, Rpr};

#[test]
fn opens_as_no_scenario(rt: HostRuntime) -> Result<(), Fail> {
    let mut ideal = image(rt.alloc())?.ok_or("no such guest")?;
    let mut guests = Vec::new(rt.alloc());
    guests.push(image(rt.alloc())?.ok_or("no such guest")?)?;
    let mut port = SeqPort::start_from(rt.alloc(), guests)?;
    let all = [
        // Level 31 runs, interrupt 40 goes before it, and its line stays up.
        reads(Rpr, 0xF8),
        reads(Iar1, 40),
        reads(Rpr, 0x50),
        writes(Eoir1, 40),
        reads(Rpr, 0xF8),
        reads(Hppir1, 40),
        // The command waits until GITS_CWRITER is written, its high half here.
        loads(Its, 0x90, 8, 0),
        stores(Its, 0x8C, 4, 0),
        loads(Its, 0x90, 8, 0x20),
    ];
    assert_eq!(rt;
        first_other(&rt, port.current_mut(), &mut ideal, all.as_slice()),
        None
    );
    Ok(())
}
