//! Commands on the tables of an ITS.
ghost use Rattle.std.specs.Prelude.{◌≡◌, ◌&&◌, not, is_none, is_some, ◌≢◌, ◌≤◌, ℕ, true, false, Some, IfSome, IfNone};
ghost use Rattle.its_tab.specs.ItsCmd.declared.command.Command.TheVariants.{Mapd, Mapti, Discard};
ghost use Rattle.its_tab.specs.Maps.{with_event, without_device, without_event, owner_of, bits_of};
ghost use Rattle.its_tab.specs.After.{without_events};
ghost use Rattle.its_tab.specs.Fault.{fault_of, is_of_other};
ghost use Rattle.its_tab.specs.Message.{translated};
ghost use Rattle.gic_bench.specs.Bench.{tallied, lpi_of, shape, IsDoneWhere};

use its_tab::{Command, FIRST_LPI, GuestShape, ItsTables, MAX_LPIS, NoMemory};
use std::alloc::Global;
use std::fmt;

/// The guest: one vCPU, and as many LPIs as a guest can have.
const SHAPE: GuestShape = GuestShape {
    vcpus: 1,
    spis: 32,
    espis: 0,
    devices: 1,
    lpis: MAX_LPIS,
    ram: 65536,
};

/// The device of all events, and its bits of EventID.
const DEVICE: u32 = 0;

const BITS: u32 = 16;

/// The collection in which events are mapped, and the one to which they move.
const FIRST: u16 = 0;

const SECOND: u16 = 1;

/// How often each operation was done, and the sum of the INTIDs that were found, modulo 2^64.
#[derive(Clone, Copy, Debug, Default, PartialEq, Eq, Hash)]
pub(crate) struct Tally {
    mapped: u64,
    found: u64,
    moved: u64,
    listed: u64,
    discarded: u64,
    dropped: u64,
    sum: u64,
}

impl Tally {
    /// This and another tally, modulo 2^64.
    pub(crate) fn plus(self, other: Tally) -> Tally
        ensures { result ≡ tallied self other }
    {
        Tally {
            mapped: self.mapped.wrapping_add(other.mapped),
            found: self.found.wrapping_add(other.found),
            moved: self.moved.wrapping_add(other.moved),
            listed: self.listed.wrapping_add(other.listed),
            discarded: self.discarded.wrapping_add(other.discarded),
            dropped: self.dropped.wrapping_add(other.dropped),
            sum: self.sum.wrapping_add(other.sum),
        }
    }
}

impl fmt::Display for Tally {
    fn fmt<W: fmt::Write>(&self, f: &mut fmt::Formatter<W>) -> fmt::Result {
        write!(
            f,
            "mapped {}, found {}, moved {}, listed {}, discarded {}, dropped {}, sum {}",
            self.mapped, self.found, self.moved, self.listed, self.discarded, self.dropped, self.sum
        )
    }
}

/// Maps this many events, finds each by a message and by its INTID, moves each to another collection, lists that
/// collection, and discards each event; then it maps them once more, and unmaps their device, which drops all of them.
pub(crate) fn round(alloc: Global, count: u32) -> Result<Tally, NoMemory> {
    let mut tables = ItsTables::of(alloc)?;
    tables.map_device(DEVICE, BITS);
    tables.map_collection(FIRST, 0);
    tables.map_collection(SECOND, 0);
    let mapped = map_all(&mut tables, count, FIRST);
    let (found, sum) = find_all(&tables, count);
    let moved = map_all(&mut tables, count, SECOND);
    let listed = tables.lpis_of(alloc, SECOND)?.len() as u64;
    let discarded = discard_all(&mut tables, count);
    let again = map_all(&mut tables, count, FIRST);
    let dropped = if unmap(&mut tables) { again } else { 0 };
    Ok(Tally {
        mapped,
        found,
        moved,
        listed,
        discarded,
        dropped,
        sum,
    })
}

/// Maps events 0 to `count` - 1 to a collection, each to its own LPI. How many were mapped.
fn map_all(tables: &mut ItsTables, count: u32, icid: u16) -> u64
    ensures { result ≤ count }
{
    let mut mapped = 0u64;
    for event in 0..count {
        mapped = mapped.wrapping_add(u64::from(map(tables, event, icid)));
    }
    mapped
}

/// Does MAPTI of an event and its own LPI, where it has no fault. Whether it was done.
fn map(tables: &mut ItsTables, event: u32, icid: u16) -> bool
    ensures done { IsDoneWhere result (Mapti 0 event (lpi_of event) icid) tables.old tables.new (with_event tables.old (0, event) (lpi_of event, icid)) }
    ensures exactly { result ≡ (is_none (fault_of shape tables.old (Mapti 0 event (lpi_of event) icid)) && is_some (bits_of tables.old 0) && not (is_of_other tables.old 0 event (lpi_of event))) }
{
    let id = FIRST_LPI.wrapping_add(event);
    let command = Command::Mapti {
        device: DEVICE,
        event,
        id,
        icid,
    };
    if tables.fault_in(&command, &SHAPE).is_some()
        || tables.bits_of(DEVICE).is_none()
        || tables
            .owner_of(id)
            .is_some_and(|owner| owner != (DEVICE, event))
    {
        return false;
    }
    tables.map_event(DEVICE, event, id, icid);
    true
}

/// The LPI of a message of an event, where the event is the one that owns it.
fn find(tables: &ItsTables, event: u32) -> Option<u32>
    ensures lpi { IfSome result (λ id. translated tables.now true 0 event ≡ Some id) }
    ensures owned { IfSome result (λ id. owner_of tables.now id ≡ Some (0, event)) }
    ensures none { IfNone result ((id : ℕ) → translated tables.now true 0 event ≡ Some id → owner_of tables.now id ≢ Some (0, event)) }
{
    let id = tables.translated(true, DEVICE, event)?;
    (tables.owner_of(id) == Some((DEVICE, event))).then_some(id)
}

/// Finds the LPI of a message of each event. How many were found, and the sum of their INTIDs.
fn find_all(tables: &ItsTables, count: u32) -> (u64, u64)
    ensures { result.0 ≤ count }
{
    let mut found = 0u64;
    let mut sum = 0u64;
    for event in 0..count {
        if let Some(id) = find(tables, event) {
            found = found.wrapping_add(1);
            sum = sum.wrapping_add(u64::from(id));
        }
    }
    (found, sum)
}

/// Does DISCARD of an event, where it has no fault. Whether it was done.
fn discard(tables: &mut ItsTables, event: u32) -> bool
    ensures done { IsDoneWhere result (Discard 0 event) tables.old tables.new (without_event tables.old (0, event)) }
    ensures exactly { result ≡ is_none (fault_of shape tables.old (Discard 0 event)) }
{
    let command = Command::Discard {
        device: DEVICE,
        event,
    };
    let good = tables.fault_in(&command, &SHAPE).is_none();
    if good {
        tables.unmap_event(DEVICE, event);
    }
    good
}

/// Does DISCARD of each event. How many were discarded.
fn discard_all(tables: &mut ItsTables, count: u32) -> u64
    ensures { result ≤ count }
{
    let mut discarded = 0u64;
    for event in 0..count {
        discarded = discarded.wrapping_add(u64::from(discard(tables, event)));
    }
    discarded
}

/// Does MAPD of the device with V = 0, which forgets all of its events. Whether it was done.
fn unmap(tables: &mut ItsTables) -> bool
    ensures done { IsDoneWhere result (Mapd 0 0 0 false) tables.old tables.new (without_device (without_events tables.old 0) 0) }
    ensures exactly { result ≡ is_none (fault_of shape tables.old (Mapd 0 0 0 false)) }
{
    let command = Command::Mapd {
        device: DEVICE,
        size: 0,
        itt_addr: 0,
        valid: false,
    };
    let is_good = tables.fault_in(&command, &SHAPE).is_none();
    if is_good {
        tables.carry_out(&command, &SHAPE);
    }
    is_good
}
