//! What an ITS has mapped.
ghost use Rattle.std.specs.Prelude.{◌≡◌, ◌≤◌, ◌<◌, ◌^◌, ◌↔◌, ◌&&◌, not, is_some, IsTrue, IfOk, MatchOption, All, [], map};
ghost use Rattle.std.specs.Ordering.{nat_cmp};
ghost use Rattle.std.specs.List.Sorted.{IsStrictlySortedBy};
ghost use Rattle.std.specs.Map.{keys_of};
ghost use Rattle.saved_guest.specs.IdealGuests.Words.{IsShape, has_interrupt, Lpi};
ghost use Rattle.saved_guest.specs.IdealGuests.Registers.{event_cmp, at_number, is_past_device, IsValid};
ghost use Rattle.saved_guest.specs.State.{maps_of};
ghost use Rattle.saved_check.specs.Tables.{dev_entry, evt_entry, col_entry, with_events, IsValidDev, IsValidCol, can_map as can_map_event};

use crate::order::{are_cols_in_order, are_devs_in_order, are_evts_in_order};
use saved_guest::{ColEnd, DevEnd, EvtEnd, GuestShape, GuestState, ItsTables, NoMemory};
use std::alloc::Global;

/// How many DeviceIDs there are.
const DEVICES: u32 = 1 << 16;
/// The most EventID bits of a device.
const MAX_BITS: u32 = 16;
/// The INTID of the first LPI.
const FIRST_LPI: u32 = 8192;

/// Whether each device has a DeviceID of 16 bits, and 1 to 16 EventID bits.
fn are_valid_devs(devs: &[DevEnd]) -> bool
    ensures { IsTrue result ↔ All IsValidDev devs.now }
{
    devs.iter().all(|dev| dev.device < DEVICES && (1..=MAX_BITS).contains(&dev.bits))
}

/// Whether each collection has a vCPU of the guest.
fn are_valid_cols(cols: &[ColEnd], shape: &GuestShape) -> bool
    ensures { IsTrue result ↔ All (IsValidCol shape.now) cols.now }
{
    let vcpus = shape.vcpus;
    cols.iter().all(|col| col.vcpu < vcpus)
}

/// Maps devices into tables without any.
fn map_devs(tables: &mut ItsTables, devs: &[DevEnd])
    requires none { tables.old.devices ≡ [] }
    requires order { IsStrictlySortedBy nat_cmp (keys_of (map dev_entry devs.now)) }
    requires each { All IsValidDev devs.now }
    ensures { tables.new ≡ record tables.old { devices = map dev_entry devs.now } }
{
    for dev in devs {
        tables.map_device(dev.device, dev.bits);
    }
}

/// Maps collections into tables without any.
fn map_cols(tables: &mut ItsTables, cols: &[ColEnd])
    requires none { tables.old.collections ≡ [] }
    requires order { IsStrictlySortedBy nat_cmp (keys_of (map col_entry cols.now)) }
    ensures { tables.new ≡ record tables.old { collections = map col_entry cols.now } }
{
    for col in cols {
        tables.map_collection(col.icid, col.vcpu);
    }
}

/// Whether an EventID has so many bits.
fn has_bits(event: u32, bits: u32) -> bool
    requires { bits ≤ 16 }
    ensures { IsTrue result ↔ event < 2 ^ bits }
{
    event < 1 << bits
}

/// Whether the device of an event is mapped and has such an EventID.
fn is_of_device(tables: &ItsTables, evt: &EvtEnd, shape: &GuestShape) -> bool
    requires { IsValid shape.now tables.now }
    ensures { result ≡ (is_some (at_number tables.now.devices evt.now.device) && not (is_past_device tables.now evt.now.device evt.now.event)) }
{
    match tables.bits_of(evt.device) {
        Some(bits) => has_bits(evt.event, bits),
        None => false,
    }
}

/// Whether the guest has an LPI of this INTID.
fn is_lpi(id: u32, shape: &GuestShape) -> bool
    requires { IsShape shape.now }
    ensures { result ≡ has_interrupt shape.now (Lpi id) }
{
    id >= FIRST_LPI && id - FIRST_LPI < shape.lpis
}

/// Whether an event can be mapped.
fn can_map(tables: &ItsTables, evt: &EvtEnd, shape: &GuestShape) -> bool
    requires shape { IsShape shape.now }
    requires valid { IsValid shape.now tables.now }
    ensures { result ≡ can_map_event shape.now tables.now evt.now }
{
    is_of_device(tables, evt, shape) && is_lpi(evt.id, shape) && tables.owner_of(evt.id).is_none()
}

/// Maps events into tables without any. False where that does not give tables that a guest can have.
fn map_evts(tables: &mut ItsTables, evts: &[EvtEnd], shape: &GuestShape) -> bool
    requires shape { IsShape shape.now }
    requires none { tables.old.events ≡ [] }
    requires valid { IsValid shape.now tables.old }
    requires order { IsStrictlySortedBy event_cmp (keys_of (map evt_entry evts.now)) }
    ensures mapped { IsTrue result → tables.new ≡ with_events tables.old evts.now }
    ensures tells { IsTrue result ↔ IsValid shape.now (with_events tables.old evts.now) }
{
    for evt in evts {
        if !can_map(tables, evt, shape) {
            return false;
        }
        tables.map_event(evt.device, evt.event, evt.id, evt.icid);
    }
    true
}

/// The tables that are told. None where a guest of this shape cannot have them. `NoMemory` where memory is refused.
pub(crate) fn tables(
    alloc: Global,
    shape: &GuestShape,
    state: &GuestState,
) -> Result<Option<ItsTables>, NoMemory>
    requires { IsShape shape.now }
    ensures { IfOk result (λ found. MatchOption found (IsValid shape.now (maps_of state.now) → ⊥) (λ tables. (tables ≡ maps_of state.now) × IsValid shape.now (maps_of state.now))) }
{
    let (devs, cols, evts) = (
        state.dev.as_slice(),
        state.col.as_slice(),
        state.evt.as_slice(),
    );
    if !are_devs_in_order(devs) || !are_cols_in_order(cols) || !are_evts_in_order(evts) {
        return Ok(None);
    }
    if !are_valid_devs(devs) || !are_valid_cols(cols, shape) {
        return Ok(None);
    }
    let mut tables = ItsTables::of(alloc)?;
    map_devs(&mut tables, devs);
    map_cols(&mut tables, cols);
    Ok(map_evts(&mut tables, evts, shape).then_some(tables))
}
