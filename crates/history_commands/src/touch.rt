//! The parts of a command as events.
ghost use Rattle.std.specs.Prelude.{◌≡◌, ◌↔◌, ◌<◌, ◌^◌, ℕ, Option, IsTrue};
ghost use Rattle.history_commands.specs.Words.{IsShape};
ghost use Rattle.history_commands.specs.Registers.{config_address as config_address_of};
ghost use Rattle.history_commands.specs.Calls.{config_byte as config_byte_of, lpi_event, byte_places, memory_at};
ghost use Rattle.history_commands.specs.HistoryCalls.Found.{found_by};
ghost use Rattle.history_commands.specs.HistoryCalls.Exact.{is_told};
ghost use Rattle.history_commands.specs.Mapped.{targets_by};
ghost use Rattle.history_commands.specs.Followed.{hands_some as hands_some_of};
ghost use Rattle.history_commands.specs.Stage.{AreReadBy, IsPartMade};

use crate::fetch::is_memory_read;
use crate::known::target_of;
use history_calls::{
    CallPart as Part, Event, FIRST_LPI, Field, Found, GuestShape, Key, Kind, ListOf, Made, Place,
    PlainWord, Touching, config_of, extract, is_same_event, split, was_read, word_at,
};

/// The address of the configuration table in what GICR_PROPBASER stores: bits [51:12].
const ADDRESS: Field = Field {
    place: 12,
    width: 40,
};

/// A write of 1 to an interrupt's part of ICPENDR.
const CLEAR: Touching = Touching::Register {
    kind: Kind::ClearPending,
    value: 1,
};

/// The address of the configuration table that a GICR_PROPBASER names.
fn table_address(propbaser: u64) -> u64
    ensures value { result ≡ config_address_of propbaser 0 }
    ensures bound { result < 2 ^ 52 }
{
    ADDRESS.in_place(propbaser)
}

/// Where the configuration byte of an LPI is in memory.
fn config_address(propbaser: u64, id: u32) -> u64
    ensures { result ≡ config_address_of propbaser id }
{
    let table = table_address(propbaser);
    if id < FIRST_LPI {
        return table;
    }
    table + u64::from(id - FIRST_LPI)
}

/// A byte of memory.
fn byte_at(shape: &GuestShape, reads: &[Made], address: u64) -> u8
    requires { IsShape shape.now }
    ensures { result ≡ memory_at shape.now (found_by reads.now) address 1 }
{
    match split(address, 1, shape.ram) {
        Some(part) => extract(word_at(reads, PlainWord::Ram { index: part.index }), &part) as u8,
        None => 0,
    }
}

/// The configuration byte of an LPI that is for a vCPU, or for none.
fn config_byte(shape: &GuestShape, reads: &[Made], target: Option<u32>, id: u32) -> u8
    requires { IsShape shape.now }
    ensures { result ≡ config_byte_of shape.now (found_by reads.now) target id }
{
    match target {
        Some(vcpu) => {
            let propbaser = word_at(reads, PlainWord::Propbaser { vcpu });
            byte_at(shape, reads, config_address(propbaser, id))
        }
        None => 0,
    }
}

/// What a part of a command does to its LPI, the command of a number from 0, by what was read before.
fn part_event(
    shape: &GuestShape,
    commands: &[ListOf<Option<u32>>],
    number: usize,
    part: Part,
    reads: &[Made],
) -> Event
    requires { IsShape shape.now }
    ensures value { result ≡ lpi_event shape.now (found_by reads.now) (targets_by commands.now number) part }
    ensures told { IsTrue (is_told result) }
{
    let (lpi, touching) = match part {
        Part::Raise { lpi } => {
            return Event::Raise { key: Key::Lpi(lpi) };
        }
        Part::Forget { lpi } => (lpi, Touching::Forget),
        Part::Map { lpi, target } => {
            let (enabled, prio) = config_of(config_byte(shape, reads, Some(target), lpi));
            (
                lpi,
                Touching::MapLpi {
                    target,
                    enabled,
                    prio,
                },
            )
        }
        Part::Retarget { lpi, target } => (lpi, Touching::Retarget { target }),
        Part::Clear { lpi } => (lpi, CLEAR),
        Part::Configure { lpi } => {
            let target = target_of(commands, number, lpi);
            let (enabled, prio) = config_of(config_byte(shape, reads, target, lpi));
            (lpi, Touching::Configure { enabled, prio })
        }
    };
    Event::Touch {
        key: Key::Lpi(lpi),
        touching,
    }
}

/// Whether the configuration byte of an LPI was read that is for a vCPU.
fn is_config_read(shape: &GuestShape, reads: &[Made], vcpu: u32, id: u32) -> bool
    requires { IsShape shape.now }
    ensures { (targets : ℕ → Option ℕ) → IsTrue result ↔ AreReadBy (found_by reads.now) reads.now (byte_places shape.now (found_by reads.now) targets (Part.Map id vcpu)) }
{
    let word = PlainWord::Propbaser { vcpu };
    was_read(reads, Place::Word { word })
        && is_memory_read(shape, reads, config_address(word_at(reads, word), id), 1)
}

/// Whether the configuration byte was read that a part goes by.
fn is_byte_read(
    shape: &GuestShape,
    commands: &[ListOf<Option<u32>>],
    number: usize,
    part: Part,
    reads: &[Made],
) -> bool
    requires { IsShape shape.now }
    ensures { IsTrue result ↔ AreReadBy (found_by reads.now) reads.now (byte_places shape.now (found_by reads.now) (targets_by commands.now number) part) }
{
    match part {
        Part::Map { lpi, target } => is_config_read(shape, reads, target, lpi),
        Part::Configure { lpi } => match target_of(commands, number, lpi) {
            Some(vcpu) => is_config_read(shape, reads, vcpu, lpi),
            None => true,
        },
        _ => true,
    }
}

/// Whether a raise handed out nothing, and a touch some record.
fn hands_some(event: &Event, found: &Found) -> bool
    ensures { result ≡ hands_some_of event.now found.now }
{
    match (*event, *found) {
        (Event::Touch { .. }, Found::Record { .. }) | (Event::Raise { .. }, Found::Nothing) => true,
        _ => false,
    }
}

/// Whether an event was made, and handed out so.
fn is_event_made(event: &Event, made: &Made) -> bool
    requires { IsTrue (is_told event.now) }
    ensures { IsTrue result ↔ ((event.now ≡ made.now.event) × IsTrue (hands_some_of event.now made.now.found)) }
{
    is_same_event(event, &made.event) && hands_some(event, &made.found)
}

/// Whether an event that was made is what a part of a command does to its LPI, the command of a number from 0, by what was
/// read before.
pub(crate) fn is_part_made(
    shape: &GuestShape,
    commands: &[ListOf<Option<u32>>],
    number: usize,
    part: Part,
    reads: &[Made],
    made: &Made,
) -> bool
    requires { IsShape shape.now }
    ensures { IsTrue result ↔ IsPartMade shape.now (targets_by commands.now number) part reads.now made.now }
{
    let event = part_event(shape, commands, number, part, reads);
    is_event_made(&event, made) && is_byte_read(shape, commands, number, part, reads)
}
