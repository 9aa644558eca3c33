//! The parts of a command.
ghost use Rattle.std.specs.Prelude.{◌≡◌, ◌++◌, ℕ, Option, IfOk, None, [], option_to_list, if◌then◌else◌};
ghost use Rattle.history_commands.specs.Words.{GuestShape as ShapeOf, IsShape};
ghost use Rattle.history_commands.specs.Registers.{id_of, fault_of};
ghost use Rattle.history_commands.specs.Calls.{lpis_of_device as lpis_of_device_in, lpis_of_collection as lpis_of_collection_in, lpis_for as lpis_for_in, each, mapping_parts as mapping_parts_of, parts as parts_in};
ghost use Rattle.history_commands.specs.LegalLists.IdealGuests.Queue.{is_of_event};
ghost use Rattle.history_commands.specs.Mapped.{targets_by};

use crate::known::target_of;
use history_calls::{CallPart as Part, Command, FIRST_LPI, GuestShape, ItsTables, ListOf};
use std::alloc::{AllocError, Global};

/// The LPIs of a device's events, in rising EventID.
fn lpis_of_device(alloc: Global, tables: &ItsTables, device: u32) -> Result<ListOf<u32>, AllocError>
    ensures { IfOk result (λ ids. ids ≡ lpis_of_device_in tables.now device) }
{
    let mut ids = ListOf::new(alloc);
    let events = tables.events(alloc)?;
    for pair in &events {
        if pair.0.0 == device {
            ids.push(pair.1.0)?;
        }
    }
    Ok(ids)
}

/// The LPIs of a collection, in rising INTID.
fn lpis_of_collection(
    alloc: Global,
    shape: &GuestShape,
    tables: &ItsTables,
    icid: u16,
) -> Result<ListOf<u32>, AllocError>
    requires { IsShape shape.now }
    ensures { IfOk result (λ ids. ids ≡ lpis_of_collection_in shape.now tables.now icid) }
{
    let mut ids = ListOf::new(alloc);
    for number in 0..shape.lpis {
        let id = FIRST_LPI + number;
        if tables.collection_of(id) == Some(icid) {
            ids.push(id)?;
        }
    }
    Ok(ids)
}

/// The LPIs that were for a vCPU as the command of a number from 0 began, in rising INTID.
fn lpis_for(
    alloc: Global,
    shape: &GuestShape,
    commands: &[ListOf<Option<u32>>],
    number: usize,
    vcpu: u32,
) -> Result<ListOf<u32>, AllocError>
    requires { IsShape shape.now }
    ensures { IfOk result (λ ids. ids ≡ lpis_for_in shape.now (targets_by commands.now number) vcpu) }
{
    let mut ids = ListOf::new(alloc);
    for place in 0..shape.lpis {
        let id = FIRST_LPI + place;
        if target_of(commands, number, id) == Some(vcpu) {
            ids.push(id)?;
        }
    }
    Ok(ids)
}

/// Each of some LPIs is forgotten.
fn forget_each(alloc: Global, ids: &[u32]) -> Result<ListOf<Part>, AllocError>
    ensures { IfOk result (λ parts. parts ≡ each ids.now Part.Forget) }
{
    let mut parts = ListOf::new(alloc);
    for lpi in ids {
        parts.push(Part::Forget { lpi: *lpi })?;
    }
    Ok(parts)
}

/// The LPIs of a device's events are forgotten.
fn device_parts(alloc: Global, tables: &ItsTables, device: u32) -> Result<ListOf<Part>, AllocError>
    ensures { IfOk result (λ parts. parts ≡ each (lpis_of_device_in tables.now device) Part.Forget) }
{
    let ids = lpis_of_device(alloc, tables, device)?;
    forget_each(alloc, ids.as_slice())
}

/// Each of some LPIs is for another vCPU, or for none.
fn retarget_each(
    alloc: Global,
    ids: &[u32],
    target: Option<u32>,
) -> Result<ListOf<Part>, AllocError>
    ensures { IfOk result (λ parts. parts ≡ each ids.now (λ lpi. Part.Retarget lpi target)) }
{
    let mut parts = ListOf::new(alloc);
    for lpi in ids {
        parts.push(Part::Retarget { lpi: *lpi, target })?;
    }
    Ok(parts)
}

/// The LPIs of a collection are for this vCPU, or for none.
fn collection_parts(
    alloc: Global,
    shape: &GuestShape,
    tables: &ItsTables,
    icid: u16,
    target: Option<u32>,
) -> Result<ListOf<Part>, AllocError>
    requires { IsShape shape.now }
    ensures { IfOk result (λ parts. parts ≡ each (lpis_of_collection_in shape.now tables.now icid) (λ lpi. Part.Retarget lpi target)) }
{
    let ids = lpis_of_collection(alloc, shape, tables, icid)?;
    retarget_each(alloc, ids.as_slice(), target)
}

/// The configuration of each of some LPIs is read.
fn configure_each(alloc: Global, ids: &[u32]) -> Result<ListOf<Part>, AllocError>
    ensures { IfOk result (λ parts. parts ≡ each ids.now Part.Configure) }
{
    let mut parts = ListOf::new(alloc);
    for lpi in ids {
        parts.push(Part::Configure { lpi: *lpi })?;
    }
    Ok(parts)
}

/// The configuration of the LPIs of a collection is read.
fn configure_parts(
    alloc: Global,
    shape: &GuestShape,
    tables: &ItsTables,
    icid: u16,
) -> Result<ListOf<Part>, AllocError>
    requires { IsShape shape.now }
    ensures { IfOk result (λ parts. parts ≡ each (lpis_of_collection_in shape.now tables.now icid) Part.Configure) }
{
    let ids = lpis_of_collection(alloc, shape, tables, icid)?;
    configure_each(alloc, ids.as_slice())
}

/// The LPI of an event, if that is mapped.
fn lpi_of(tables: &ItsTables, device: u32, event: u32) -> Option<u32>
    ensures { result ≡ id_of tables.now (device, event) }
{
    tables.find(device, event).map(|(lpi, _)| lpi)
}

/// A part, if there is one, and then another, if there is one.
fn both_parts(
    alloc: Global,
    first: Option<Part>,
    second: Option<Part>,
) -> Result<ListOf<Part>, AllocError>
    ensures { IfOk result (λ parts. parts ≡ option_to_list first ++ option_to_list second) }
{
    let mut parts = ListOf::new(alloc);
    if let Some(part) = first {
        parts.push(part)?;
    }
    if let Some(part) = second {
        parts.push(part)?;
    }
    Ok(parts)
}

/// An event is mapped to an LPI: what it was mapped to is forgotten first.
fn mapping_parts(
    alloc: Global,
    tables: &ItsTables,
    device: u32,
    event: u32,
    lpi: u32,
    icid: u16,
) -> Result<ListOf<Part>, AllocError>
    ensures { IfOk result (λ parts. parts ≡ mapping_parts_of tables.now (device, event) lpi icid) }
{
    let old = lpi_of(tables, device, event);
    let target = tables.target_of(icid);
    both_parts(
        alloc,
        old.map(|lpi| Part::Forget { lpi }),
        target.map(|target| Part::Map { lpi, target }),
    )
}

/// What a command that is about the LPI of one event does to it, if the event is mapped.
fn event_part(tables: &ItsTables, command: &Command) -> Option<Part>
    ensures { (shape : ShapeOf) (targets : ℕ → Option ℕ) → option_to_list result ≡ (if is_of_event command.now then parts_in shape tables.now targets command.now else []) }
{
    match *command {
        Command::Movi {
            device,
            event,
            icid,
        } => {
            let target = tables.target_of(icid);
            lpi_of(tables, device, event).map(|lpi| Part::Retarget { lpi, target })
        }
        Command::Int { device, event } => lpi_of(tables, device, event).map(|lpi| Part::Raise {
            lpi,
        }),
        Command::Clear { device, event } => lpi_of(tables, device, event).map(|lpi| Part::Clear {
            lpi,
        }),
        Command::Discard { device, event } => {
            lpi_of(tables, device, event).map(|lpi| Part::Forget { lpi })
        }
        Command::Inv { device, event } => {
            lpi_of(tables, device, event).map(|lpi| Part::Configure { lpi })
        }
        _ => None,
    }
}

/// What a command without a fault does to LPIs, in order, the command of a number from 0 of its call.
pub(crate) fn parts_of(
    alloc: Global,
    shape: &GuestShape,
    tables: &ItsTables,
    commands: &[ListOf<Option<u32>>],
    number: usize,
    command: &Command,
) -> Result<ListOf<Part>, AllocError>
    requires shape { IsShape shape.now }
    requires good { fault_of shape.now tables.now command.now ≡ None }
    ensures { IfOk result (λ parts. parts ≡ parts_in shape.now tables.now (targets_by commands.now number) command.now) }
{
    match *command {
        Command::Mapd { device, .. } => device_parts(alloc, tables, device),
        Command::Mapc {
            icid,
            rdbase,
            valid: true,
        } => collection_parts(alloc, shape, tables, icid, Some(rdbase as u32)),
        Command::Mapc { icid, .. } if tables.target_of(icid).is_some() => {
            collection_parts(alloc, shape, tables, icid, None)
        }
        Command::Mapti {
            device,
            event,
            id,
            icid,
        } => mapping_parts(alloc, tables, device, event, id, icid),
        Command::Mapi {
            device,
            event,
            icid,
        } => mapping_parts(alloc, tables, device, event, event, icid),
        Command::Invall { icid } => configure_parts(alloc, shape, tables, icid),
        Command::Movall { rdbase, second } => {
            let ids = lpis_for(alloc, shape, commands, number, rdbase as u32)?;
            retarget_each(alloc, ids.as_slice(), Some(second as u32))
        }
        Command::Mapc { .. } | Command::Sync { .. } => Ok(ListOf::new(alloc)),
        _ => both_parts(alloc, event_part(tables, command), None),
    }
}
