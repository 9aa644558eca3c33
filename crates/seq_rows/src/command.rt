//! Drawn commands of an ITS.

use crate::dice::Dice;
use crate::guests::lpi_id;
use gic_top::{QueueCommand as Command, encode};

/// The device that has events.
pub(crate) const DEVICE: u32 = 8;

/// A device with five bits, or none any more.
fn mapd(device: u32, valid: bool) -> [u64; 4] {
    encode(&Command::Mapd {
        device,
        size: 4,
        itt_addr: 0,
        valid,
    })
}

/// A command: mostly of device 8, of events 0 to 3, of collections 0 to 2, and of vCPUs 0 to 3.
fn words_of_command(dice: &mut Dice) -> [u64; 4] {
    let device = if dice.is_once_in(4) { 9 } else { DEVICE };
    let event = dice.roll_small(4);
    let icid = dice.roll(3) as u16;
    let rdbase = dice.roll(4);
    let command = match dice.roll(16) {
        0..=2 => Command::Movi {
            device,
            event,
            icid,
        },
        3 | 4 => Command::Int { device, event },
        5 => Command::Clear { device, event },
        6 => return encode(&Command::Sync { rdbase }),
        7 => return mapd(device, !dice.is_once_in(3)),
        8 | 9 => {
            let valid = !dice.is_once_in(4);
            return encode(&Command::Mapc {
                icid,
                rdbase,
                valid,
            });
        }
        10 | 11 => Command::Mapti {
            device,
            event,
            id: lpi_id(dice),
            icid,
        },
        12 => Command::Inv { device, event },
        13 => Command::Invall { icid },
        14 => {
            let second = dice.roll(3);
            return encode(&Command::Movall { rdbase, second });
        }
        _ => Command::Discard { device, event },
    };
    encode(&command)
}

/// The four doublewords of a command, seldom of none.
pub(crate) fn words(dice: &mut Dice) -> [u64; 4] {
    if dice.is_once_in(30) {
        return [0x7F, 0, 0, 0];
    }
    words_of_command(dice)
}

/// A collection for a vCPU.
fn collection(icid: u16, vcpu: u32) -> [u64; 4] {
    encode(&Command::Mapc {
        icid,
        rdbase: u64::from(vcpu),
        valid: true,
    })
}

/// An event of the device for an LPI, in a collection.
fn event(event: u32, icid: u16) -> [u64; 4] {
    encode(&Command::Mapti {
        device: DEVICE,
        event,
        id: event.wrapping_add(8192),
        icid,
    })
}

/// The commands of a set-up: a device, three collections, and four events.
pub(crate) fn setup(last: u32) -> [[u64; 4]; 8] {
    [
        mapd(DEVICE, true),
        collection(0, 0),
        collection(1, last),
        collection(2, last / 2),
        event(0, 0),
        event(1, 1),
        event(2, 1),
        event(3, 2),
    ]
}
