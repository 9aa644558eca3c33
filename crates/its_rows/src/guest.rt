//! The guest of the tests, where its queue and its tables are, and what becomes of its LPI.
ghost use Rattle.std.specs.Prelude.{◌<◌};

use gic_msi::{CoreStep, Key, Port, WordId};
use port_rest::{LPI, one_guest};
use port_seq::{
    COMMAND_BYTES, Command, GuestShape, Mode, PlainWord, SeqPort, place_of_plain, target_in, unpack,
};
use std::alloc::{AllocError, Global};

/// Two vCPUs, 16 LPIs, and 64 KiB of memory.
pub(crate) const SHAPE: GuestShape = GuestShape {
    vcpus: 2,
    spis: 32,
    espis: 0,
    devices: 1,
    lpis: 16,
    ram: 65536,
};

/// The same guest with a second device.
pub(crate) const TWO_DEVICES: GuestShape = GuestShape {
    devices: 2,
    ..SHAPE
};

/// Where the queue is, and GITS_CBASER for it: 4096 bytes.
const QUEUE: u32 = 0x1000;

pub(crate) const CBASER: u64 = 0x8000_0000_0000_1000;

/// The commands that the queue has places for.
pub(crate) const QUEUE_PLACES: u16 = 128;

/// The address of the second command, and a first doubleword with the number of no command.
pub(crate) const SECOND_PLACE: u32 = 0x1020;

pub(crate) const NO_COMMAND: u64 = 0x7F;

/// Where the configuration bytes of LPIs are, and GICR_PROPBASER for them.
pub(crate) const TABLE: u32 = 0x3000;

pub(crate) const PROPBASER: u64 = 0x300D;

/// The configuration byte of the LPI, the fourth of the table: enabled, of priority 0xA0.
pub(crate) const CONFIG: u64 = 0xA1 << 24;

/// Of an LPI whether it is enabled, its priority, whether a cause by software is latched, and its vCPU.
pub(crate) type LpiState = (bool, u8, bool, Option<u32>);

/// No LPI, and one that is mapped: without a cause, with one, and with one after its move.
pub(crate) const NOTHING: LpiState = (false, 0, false, None);

pub(crate) const MAPPED: LpiState = (true, 0xA0, false, Some(1));

pub(crate) const LATCHED: LpiState = (true, 0xA0, true, Some(1));

pub(crate) const MOVED: LpiState = (true, 0xA0, true, Some(0));

/// A guest of a shape, which opens on. None where it is not good.
pub(crate) fn open_guest(alloc: Global, shape: GuestShape) -> Result<Option<SeqPort>, AllocError> {
    let scenario = one_guest(alloc, shape, true, &[])?;
    if !scenario.is_good(alloc, Mode::Threads)? {
        return Ok(None);
    }
    Ok(Some(SeqPort::start(alloc, &scenario)?))
}

/// The address of a place in the queue, counted on from its begin at its end.
pub(crate) fn address_of_place(place: u16) -> u32
    ensures { result < 8192 }
{
    QUEUE + COMMAND_BYTES * u32::from(place % QUEUE_PLACES)
}

/// The LPI. None where the guest does not have it.
pub(crate) fn lpi_state<P: Port>(port: &mut P) -> Option<LpiState> {
    if port.shape() != SHAPE {
        return None;
    }
    let word = port.step(CoreStep::Look {
        word: WordId::Irq(Key::Lpi(LPI)),
    });
    let irq = unpack(word)?;
    Some((
        irq.enabled,
        irq.prio,
        irq.soft,
        target_in(irq.route, &SHAPE),
    ))
}

/// The queue's word, as GITS_CREADR has it, and the number of the fault: 0 where the queue is not stalled. None where the guest
/// has another shape.
pub(crate) fn queue_state<P: Port>(port: &mut P) -> Option<(u64, u64)> {
    if port.shape() != SHAPE {
        return None;
    }
    let word = port.step(CoreStep::Look {
        word: WordId::Queue,
    });
    if word % 2 == 0 {
        return Some((word, 0));
    }
    let index = place_of_plain(PlainWord::Fault, &SHAPE) as u32;
    Some((word, port.step(CoreStep::RamLook { index })))
}

/// MAPTI of an event of a device to an interrupt in a collection.
pub(crate) fn map_event(device: u32, event: u32, id: u32, icid: u16) -> Command {
    Command::Mapti {
        device,
        event,
        id,
        icid,
    }
}
