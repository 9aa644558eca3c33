//! Commands that the ITS takes from the guest's memory.
ghost use Rattle.std.specs.Prelude.{⊤};

use crate::board::{LAYOUT, access};
use gic_vm::{GuestMemory, Machine};

/// Where the queue of one page is.
const QUEUE: u64 = 0x4_0000_0000;
/// GITS_CBASER: Valid, and the queue.
const CBASER: u64 = (1 << 63) + QUEUE;
/// The bytes of a command, of two, and of the queue.
const COMMAND: u64 = 32;

const PAIR: u64 = 2 * COMMAND;

const PAGE: u64 = 4096;
/// How many pairs of commands the queue has.
const PAIRS: u32 = 64;
/// The bytes of a doubleword.
const DOUBLEWORD: u64 = 8;
/// Device 8, in a command.
const DEVICE: u64 = 8 << 32;

/// The doublewords of a command.
type Words = [u64; 4];

/// MAPD of device 8 with 5 bits of EventID.
const MAPD: Words = [DEVICE + 0x08, 4, 1 << 63, 0];
/// MAPC of collection 1 to vCPU 1.
const MAPC: Words = [0x09, 0, (1 << 63) + (1 << 16) + 1, 0];
/// MAPTI of event 3 of device 8 to INTID 8195 and collection 1.
const MAPTI: Words = [DEVICE + 0x0A, (8195 << 32) + 3, 1, 0];
/// INV of event 3 of device 8.
const INV: Words = [DEVICE + 0x0C, 3, 0, 0];
/// SYNC of vCPU 1.
const SYNC: Words = [0x05, 0, 1 << 16, 0];

/// A queue that has two commands over and over.
#[derive(Clone, Copy)]
struct Queue {
    even: Words,
    odd: Words,
}

impl GuestMemory for Queue {
    ghost may_read = { λ _ _ _. ⊤ };

    fn read(&self, address: u64) -> Option<u64> {
        let offset = address.checked_sub(QUEUE)?;
        let words = if offset % PAIR < COMMAND {
            &self.even
        } else {
            &self.odd
        };
        words.get((offset % COMMAND / DOUBLEWORD) as usize).copied()
    }
}

/// Makes the ITS take the two commands at a place in the queue, of pairs from 0.
fn take(machine: &mut Machine, pair: u32, queue: &Queue) -> Option<()> {
    let end = (u64::from(pair) + 1) * PAIR % PAGE;
    access(machine, LAYOUT.its + 0x88, 8, end, queue)
}

/// Sets the ITS up, and maps event 3 of device 8.
pub(crate) fn map_event(machine: &mut Machine) -> Option<()> {
    let maps = Queue {
        even: MAPD,
        odd: MAPC,
    };
    let event = Queue {
        even: MAPTI,
        odd: SYNC,
    };
    access(machine, LAYOUT.its + 0x80, 8, CBASER, &maps)?;
    access(machine, LAYOUT.its, 4, 1, &maps)?;
    take(machine, 0, &maps)?;
    take(machine, 1, &event)
}

/// The ITS takes an INV and a SYNC, after the pairs that were taken before.
pub(crate) fn refresh(machine: &mut Machine, number: u32) -> Option<u64> {
    let commands = Queue {
        even: INV,
        odd: SYNC,
    };
    take(machine, (number % PAIRS + 2) % PAIRS, &commands)?;
    Some(1)
}
