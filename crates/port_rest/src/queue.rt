//! The commands that a guest with one LPI has for its ITS, and the doublewords that a command has in the queue.
ghost use Rattle.std.specs.Prelude.{◌≡◌, ◌↔◌, IsTrue, IsSome, IfSome};
ghost use Rattle.floor_core.specs.Registers.{FitsFields, encoded};

use floor_core::{Command, encode};

/// The DeviceID and the EventID of the LPI's messages.
pub const DEVICE_ID: u32 = 8;

pub const EVENT_ID: u32 = 3;

/// The LPI.
pub const LPI: u32 = 8195;

/// The device, with 5 bits of EventID.
pub const MAPD: Command = Command::Mapd {
    device: DEVICE_ID,
    size: 4,
    itt_addr: 0x20,
    valid: true,
};

/// Collection 1, of vCPU 1.
pub const MAPC: Command = Command::Mapc {
    icid: 1,
    rdbase: 1,
    valid: true,
};

/// The event, which is the LPI in collection 1.
pub const MAPTI: Command = Command::Mapti {
    device: DEVICE_ID,
    event: EVENT_ID,
    id: LPI,
    icid: 1,
};

/// Waits for the commands of vCPU 1.
pub const SYNC: Command = Command::Sync { rdbase: 1 };

/// The commands that map the LPI to vCPU 1.
pub const MAP_LPI: [Command; 4] = [MAPD, MAPC, MAPTI, SYNC];

/// Collection 2, of vCPU 0, and the move of the event to it.
pub const OTHER_MAPC: Command = Command::Mapc {
    icid: 2,
    rdbase: 0,
    valid: true,
};

pub const MOVI: Command = Command::Movi {
    device: DEVICE_ID,
    event: EVENT_ID,
    icid: 2,
};

/// The other commands of the event.
pub const INT: Command = Command::Int {
    device: DEVICE_ID,
    event: EVENT_ID,
};

pub const CLEAR: Command = Command::Clear {
    device: DEVICE_ID,
    event: EVENT_ID,
};

pub const DISCARD: Command = Command::Discard {
    device: DEVICE_ID,
    event: EVENT_ID,
};

pub const INV: Command = Command::Inv {
    device: DEVICE_ID,
    event: EVENT_ID,
};

/// One past the largest number of each field that has not all numbers of its type.
const SIZE_END: u32 = 1 << 5;

const ITT_ADDR_END: u64 = 1 << 44;

const RDBASE_END: u64 = 1 << 35;

/// Whether each number of a command fits its field.
fn fits_fields(command: &Command) -> bool
    ensures { IsTrue result ↔ FitsFields command.now }
{
    match *command {
        Command::Mapd { size, itt_addr, .. } => size < SIZE_END && itt_addr < ITT_ADDR_END,
        Command::Mapc { rdbase, .. } | Command::Sync { rdbase } => rdbase < RDBASE_END,
        Command::Movall { rdbase, second } => rdbase < RDBASE_END && second < RDBASE_END,
        _ => true,
    }
}

/// The doublewords of a command in the queue. None where a number does not fit its field.
pub fn command_words(command: &Command) -> Option<[u64; 4]>
    ensures fits { IsSome result ↔ FitsFields command.now }
    ensures value { IfSome result (λ words. words ≡ encoded command.now) }
{
    if !fits_fields(command) {
        return None;
    }
    Some(encode(command))
}
