//! The commands, and their doublewords both ways.
ghost use Rattle.std.specs.Prelude.{◌≡◌, ◌==◌, ◌<◌, ◌+◌, ◌*◌, ◌^◌, IfOk, slice_index};
ghost use Rattle.floor_words.specs.Words.{bit_of};
ghost use Rattle.its_cmd.specs.declared.command.Command.TheVariants.{Mapd, Mapc, Mapti};
ghost use Rattle.its_cmd.specs.Field.{device_in, event_in, pintid_in, size_in, itt_addr_in, icid_in, rdbase_in, valid_in};
ghost use Rattle.its_cmd.specs.Command.{FitsFields, decoded, encoded};
ghost use Rattle.its_cmd.specs.Laws.{OnlyFieldsMatter};

use crate::field::{DEVICE, EVENT, ICID, ITT_ADDR, NUMBER, PINTID, RDBASE, SECOND, SIZE, VALID};

// The number of each command: DW0 [7:0].
const MOVI: u64 = 0x01;

const INT: u64 = 0x03;

const CLEAR: u64 = 0x04;

const SYNC: u64 = 0x05;

const MAPD: u64 = 0x08;

const MAPC: u64 = 0x09;

const MAPTI: u64 = 0x0A;

const MAPI: u64 = 0x0B;

const INV: u64 = 0x0C;

const INVALL: u64 = 0x0D;

const MOVALL: u64 = 0x0E;

const DISCARD: u64 = 0x0F;

/// A command of the ITS (IHI 0069, "ITS commands"). Each number is the bits of its field.
#[derive(Clone, Copy, Debug, PartialEq, Eq, Hash)]
pub enum Command {
    /// The event's interrupt moves to another collection.
    Movi {
        device: u32,
        event: u32,
        icid: u16,
    },
    /// The event's interrupt becomes pending.
    Int {
        device: u32,
        event: u32,
    },
    /// The event's interrupt is no longer pending.
    Clear {
        device: u32,
        event: u32,
    },
    /// Waits for the commands before it.
    Sync {
        rdbase: u64,
    },
    /// Maps a device, with `size` + 1 bits of EventID, or unmaps it where V, `valid`, is 0.
    Mapd {
        device: u32,
        /// Below 32.
        size: u32,
        /// Bits [51:8] of the address of the device's table: below 2^44.
        itt_addr: u64,
        valid: bool,
    },
    /// Maps a collection to a redistributor, or unmaps it where V, `valid`, is 0.
    Mapc {
        icid: u16,
        /// Below 2^35.
        rdbase: u64,
        valid: bool,
    },
    /// Maps an event to the interrupt `id` in a collection.
    Mapti {
        device: u32,
        event: u32,
        /// pINTID.
        id: u32,
        icid: u16,
    },
    /// Maps an event to the interrupt of its own number in a collection.
    Mapi {
        device: u32,
        event: u32,
        icid: u16,
    },
    /// Reads the configuration of the event's interrupt.
    Inv {
        device: u32,
        event: u32,
    },
    /// Reads the configuration of each interrupt of a collection.
    Invall {
        icid: u16,
    },
    /// The interrupts of one redistributor move to a second. Both are below 2^35.
    Movall {
        rdbase: u64,
        second: u64,
    },
    /// Unmaps an event, whose interrupt is no longer pending.
    Discard {
        device: u32,
        event: u32,
    },
}

/// Why four doublewords are no command.
#[derive(Clone, Copy, Debug, PartialEq, Eq, Hash)]
pub enum BadCommand {
    /// DW0 [7:0] is the number of none of the twelve commands.
    UnknownNumber,
}

/// The command of four doublewords. `UnknownNumber` exactly where DW0 [7:0] is the number of none of the twelve;
/// bits of no field of the command do not matter.
pub fn decode(words: [u64; 4]) -> Result<Command, BadCommand>
    ensures value { result ≡ decoded words }
    ensures fits { IfOk result FitsFields }
{
    let device = DEVICE.of(&words) as u32;
    let event = EVENT.of(&words) as u32;
    let icid = ICID.of(&words) as u16;
    let rdbase = RDBASE.of(&words);
    match NUMBER.of(&words) {
        MOVI => Ok(Command::Movi {
            device,
            event,
            icid,
        }),
        INT => Ok(Command::Int { device, event }),
        CLEAR => Ok(Command::Clear { device, event }),
        SYNC => Ok(Command::Sync { rdbase }),
        MAPD => Ok(mapd_of(&words)),
        MAPC => Ok(mapc_of(&words)),
        MAPTI => Ok(mapti_of(&words)),
        MAPI => Ok(Command::Mapi {
            device,
            event,
            icid,
        }),
        INV => Ok(Command::Inv { device, event }),
        INVALL => Ok(Command::Invall { icid }),
        MOVALL => Ok(Command::Movall {
            rdbase,
            second: SECOND.of(&words),
        }),
        DISCARD => Ok(Command::Discard { device, event }),
        _ => Err(BadCommand::UnknownNumber),
    }
}

/// V.
fn is_valid(words: &[u64; 4]) -> bool
    ensures { result ≡ (valid_in words.now == 1) }
{
    VALID.of(words) == 1
}

/// The MAPD of its doublewords.
fn mapd_of(words: &[u64; 4]) -> Command
    ensures { result ≡ Mapd (device_in words.now) (size_in words.now) (itt_addr_in words.now) (valid_in words.now == 1) }
{
    Command::Mapd {
        device: DEVICE.of(words) as u32,
        size: SIZE.of(words) as u32,
        itt_addr: ITT_ADDR.of(words),
        valid: is_valid(words),
    }
}

/// The MAPC of its doublewords.
fn mapc_of(words: &[u64; 4]) -> Command
    ensures { result ≡ Mapc (icid_in words.now) (rdbase_in words.now) (valid_in words.now == 1) }
{
    Command::Mapc {
        icid: ICID.of(words) as u16,
        rdbase: RDBASE.of(words),
        valid: is_valid(words),
    }
}

/// The MAPTI of its doublewords.
fn mapti_of(words: &[u64; 4]) -> Command
    ensures { result ≡ Mapti (device_in words.now) (event_in words.now) (pintid_in words.now) (icid_in words.now) }
{
    Command::Mapti {
        device: DEVICE.of(words) as u32,
        event: EVENT.of(words) as u32,
        id: PINTID.of(words) as u32,
        icid: ICID.of(words) as u16,
    }
}

/// The four doublewords of a command, with 0 in the bits of no field. Each number has to fit its field.
pub fn encode(command: &Command) -> [u64; 4]
    requires { FitsFields command.now }
    ensures value { result ≡ encoded command.now }
    ensures back { decoded result ≡ Ok command.now }
{
    let head = head_of(command);
    match *command {
        Command::Movi { event, icid, .. } => [head, u64::from(event), u64::from(icid), 0],
        Command::Int { event, .. }
        | Command::Clear { event, .. }
        | Command::Inv { event, .. }
        | Command::Discard { event, .. } => [head, u64::from(event), 0, 0],
        Command::Sync { rdbase } => [head, 0, RDBASE.put(rdbase), 0],
        Command::Mapd {
            size,
            itt_addr,
            valid,
            ..
        } => [head, u64::from(size), table_word(itt_addr, valid), 0],
        Command::Mapc {
            icid,
            rdbase,
            valid,
        } => [head, 0, target_word(icid, rdbase, valid), 0],
        Command::Mapti {
            event,
            id,
            icid,
            ..
        } => [head, event_word(event, id), u64::from(icid), 0],
        Command::Mapi { event, icid, .. } => [head, u64::from(event), u64::from(icid), 0],
        Command::Invall { icid } => [head, 0, u64::from(icid), 0],
        Command::Movall { rdbase, second } => [head, 0, RDBASE.put(rdbase), SECOND.put(second)],
    }
}

/// DW0 of a command: its number, and its DeviceID where it has one.
fn head_of(command: &Command) -> u64
    ensures { result ≡ slice_index (encoded command.now) 0 }
{
    match *command {
        Command::Movi { device, .. } => on_device(MOVI, device),
        Command::Int { device, .. } => on_device(INT, device),
        Command::Clear { device, .. } => on_device(CLEAR, device),
        Command::Sync { .. } => SYNC,
        Command::Mapd { device, .. } => on_device(MAPD, device),
        Command::Mapc { .. } => MAPC,
        Command::Mapti { device, .. } => on_device(MAPTI, device),
        Command::Mapi { device, .. } => on_device(MAPI, device),
        Command::Inv { device, .. } => on_device(INV, device),
        Command::Invall { .. } => INVALL,
        Command::Movall { .. } => MOVALL,
        Command::Discard { device, .. } => on_device(DISCARD, device),
    }
}

/// DW1 of a MAPTI.
fn event_word(event: u32, id: u32) -> u64
    ensures { result ≡ event + id * 2 ^ 32 }
{
    u64::from(event) + PINTID.put(u64::from(id))
}

/// DW2 of a MAPD, whose ITT_addr has to fit its field.
fn table_word(itt_addr: u64, valid: bool) -> u64
    requires { itt_addr < 2 ^ 44 }
    ensures { result ≡ itt_addr * 2 ^ 8 + bit_of valid * 2 ^ 63 }
{
    ITT_ADDR.put(itt_addr) + VALID.put(u64::from(valid))
}

/// DW2 of a MAPC, whose RDbase has to fit its field.
fn target_word(icid: u16, rdbase: u64, valid: bool) -> u64
    requires { rdbase < 2 ^ 35 }
    ensures { result ≡ icid + rdbase * 2 ^ 16 + bit_of valid * 2 ^ 63 }
{
    u64::from(icid) + RDBASE.put(rdbase) + VALID.put(u64::from(valid))
}

/// DW0 of a command with a DeviceID.
fn on_device(number: u64, device: u32) -> u64
    requires { number < 2 ^ 8 }
    ensures { result ≡ number + device * 2 ^ 32 }
{
    number + DEVICE.put(u64::from(device))
}

/// A law of all doublewords: two sets of them are the same command exactly where they have the same number,
/// and the same value in each field of this number's command.
pub fn only_fields_matter()
    ensures { OnlyFieldsMatter }
{}
