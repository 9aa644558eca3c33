//! A command without a fault.
ghost use Rattle.std.specs.Prelude.{◌≡◌, ◌<◌, IfSome, IsSome, None, true, false};
ghost use Rattle.port_call.specs.Words.{has_interrupt, Lpi};
ghost use Rattle.port_call.specs.Calls.{lpis_of_device};
ghost use Rattle.port_call.specs.Registers.{IsValid, maps_after, without_events, fault_of, pair_of, with_device, without_device, without_event, IsSound, FitsFields};
ghost use Rattle.port_call.specs.Core.{known_maps, shape_of};
ghost use Rattle.port_call.specs.Rest.{IsAtEase};
ghost use Rattle.its_exec.specs.Command.{DoesCommand};
ghost use Rattle.its_exec.specs.Config.{HoldsCommand};
ghost use Rattle.its_exec.specs.Parts.{is_part_of};
ghost use Rattle.its_exec.specs.Plan.{IsFresh, first_of, second_of, is_several, is_mapd, DoesSome, HasLpis, ForgetsEvent, ForgetsAll};

use crate::fetch::Fetched;
use crate::part::{do_part, do_some};
use crate::sweep::do_sweep;
use port_call::{CallPart as Part, Command, GuestShape, ItsTables, Port};
use std::sync::Wait;

/// Forgets the LPI of an event that is mapped, and unmaps the event.
fn forget_event<P: Port, R: Wait>(
    rt: &R,
    port: &mut P,
    tables: &mut ItsTables,
    fetched: &Fetched,
    event: (u32, u32),
)
    requires mapped { IsSome (pair_of tables.old event) }
    requires valid { HasLpis (shape_of (P.seen port.old)) tables.old }
    requires ease { IsAtEase (P.seen port.old).local }
    requires holds { HoldsCommand (P.seen port.old) fetched.now }
    ensures does { ForgetsEvent (P.seen port.old) (P.seen port.new) fetched.now.address tables.old event }
    ensures tables { tables.new ≡ without_event tables.old event }
{
    let (lpi, _) = tables.find(event.0, event.1).unwrap();
    do_part(rt, port, fetched, Part::Forget { lpi });
    tables.unmap_event(event.0, event.1);
}

/// Forgets the LPIs of a device's events, in rising EventID, and unmaps these events.
fn forget_events<P: Port, R: Wait>(
    rt: &R,
    port: &mut P,
    tables: &mut ItsTables,
    fetched: &Fetched,
    device: u32,
)
    requires sound { IsSound tables.old }
    requires valid { HasLpis (shape_of (P.seen port.old)) tables.old }
    requires ease { IsAtEase (P.seen port.old).local }
    requires holds { HoldsCommand (P.seen port.old) fetched.now }
    ensures does { ForgetsAll (P.seen port.old) (P.seen port.new) fetched.now.address (lpis_of_device tables.old device) }
    ensures tables { tables.new ≡ without_events tables.old device }
{
    while let Some(event) = tables.first_event(device) {
        forget_event(rt, port, tables, fetched, (device, event));
    }
}

/// MAPD with V = 1: the events of the device are forgotten, and it is mapped with this number of EventID bits.
fn replace_device<P: Port, R: Wait>(
    rt: &R,
    port: &mut P,
    tables: &mut ItsTables,
    fetched: &Fetched,
    device: u32,
    bits: u32,
)
    requires range { device < 65536 }
    requires sound { IsSound tables.old }
    requires valid { HasLpis (shape_of (P.seen port.old)) tables.old }
    requires ease { IsAtEase (P.seen port.old).local }
    requires holds { HoldsCommand (P.seen port.old) fetched.now }
    ensures does { ForgetsAll (P.seen port.old) (P.seen port.new) fetched.now.address (lpis_of_device tables.old device) }
    ensures tables { tables.new ≡ with_device (without_events tables.old device) device bits }
{
    forget_events(rt, port, tables, fetched, device);
    tables.map_device(device, bits);
}

/// MAPD with V = 0: the events of the device are forgotten, and it is unmapped.
fn forget_device<P: Port, R: Wait>(
    rt: &R,
    port: &mut P,
    tables: &mut ItsTables,
    fetched: &Fetched,
    device: u32,
)
    requires sound { IsSound tables.old }
    requires valid { HasLpis (shape_of (P.seen port.old)) tables.old }
    requires ease { IsAtEase (P.seen port.old).local }
    requires holds { HoldsCommand (P.seen port.old) fetched.now }
    ensures does { ForgetsAll (P.seen port.old) (P.seen port.new) fetched.now.address (lpis_of_device tables.old device) }
    ensures tables { tables.new ≡ without_device (without_events tables.old device) device }
{
    forget_events(rt, port, tables, fetched, device);
    tables.unmap_device(device);
}

/// What a MAPTI or a MAPI forgets first: what its event had.
fn first_part(tables: &ItsTables, command: &Command) -> Option<Part>
    ensures { result ≡ first_of tables.now command.now }
{
    match *command {
        Command::Mapti { device, event, .. } | Command::Mapi { device, event, .. } => {
            let (lpi, _) = tables.find(device, event)?;
            Some(Part::Forget { lpi })
        }
        _ => None,
    }
}

/// The part of a command that is about one event, if the event is mapped.
fn second_part(tables: &ItsTables, command: &Command) -> Option<Part>
    ensures { result ≡ second_of tables.now command.now }
{
    match *command {
        Command::Mapti { id, icid, .. } => {
            let target = tables.target_of(icid)?;
            Some(Part::Map { lpi: id, target })
        }
        Command::Mapi { event, icid, .. } => {
            let target = tables.target_of(icid)?;
            Some(Part::Map { lpi: event, target })
        }
        Command::Movi {
            device,
            event,
            icid,
        } => {
            let (lpi, _) = tables.find(device, event)?;
            Some(Part::Retarget {
                lpi,
                target: tables.target_of(icid),
            })
        }
        Command::Int { device, event } => {
            let (lpi, _) = tables.find(device, event)?;
            Some(Part::Raise { lpi })
        }
        Command::Clear { device, event } => {
            let (lpi, _) = tables.find(device, event)?;
            Some(Part::Clear { lpi })
        }
        Command::Discard { device, event } => {
            let (lpi, _) = tables.find(device, event)?;
            Some(Part::Forget { lpi })
        }
        Command::Inv { device, event } => {
            let (lpi, _) = tables.find(device, event)?;
            Some(Part::Configure { lpi })
        }
        _ => None,
    }
}

/// Whether a command is about the LPIs of a collection or of a vCPU.
fn is_about_several(tables: &ItsTables, command: &Command) -> bool
    ensures { result ≡ is_several tables.now command.now }
{
    match *command {
        Command::Mapc { icid, valid, .. } => valid || tables.target_of(icid).is_some(),
        Command::Invall { .. } | Command::Movall { .. } => true,
        _ => false,
    }
}

/// A command that is no MAPD.
fn do_plain<P: Port, R: Wait>(
    rt: &R,
    port: &mut P,
    tables: &mut ItsTables,
    shape: &GuestShape,
    fetched: &Fetched,
    command: &Command,
)
    requires plain { is_mapd command.now ≡ false }
    requires shape { shape.now ≡ shape_of (P.seen port.old) }
    requires known { tables.old ≡ known_maps (P.seen port.old).own }
    requires valid { IsValid shape.now tables.old }
    requires good { fault_of shape.now tables.old command.now ≡ None }
    requires ease { IsAtEase (P.seen port.old).local }
    requires holds { HoldsCommand (P.seen port.old) fetched.now }
    requires fresh { IsFresh (P.seen port.old) }
    ensures does { DoesCommand (P.seen port.old) (P.seen port.new) fetched.now.address tables.old command.now }
    ensures tables { tables.new ≡ maps_after tables.old command.now }
{
    let first = first_part(tables, command);
    let second = second_part(tables, command);
    let several = is_about_several(tables, command);
    tables.carry_out(command, shape);
    do_some(rt, port, fetched, first);
    do_some(rt, port, fetched, second);
    if several {
        do_sweep(rt, port, tables, fetched, command);
    }
}

/// Does what a command without a fault does to the tables, and its parts.
pub(crate) fn do_command<P: Port, R: Wait>(
    rt: &R,
    port: &mut P,
    tables: &mut ItsTables,
    shape: &GuestShape,
    fetched: &Fetched,
    command: &Command,
)
    requires shape { shape.now ≡ shape_of (P.seen port.old) }
    requires known { tables.old ≡ known_maps (P.seen port.old).own }
    requires valid { IsValid shape.now tables.old }
    requires good { fault_of shape.now tables.old command.now ≡ None }
    requires ease { IsAtEase (P.seen port.old).local }
    requires holds { HoldsCommand (P.seen port.old) fetched.now }
    requires fresh { IsFresh (P.seen port.old) }
    requires fits { FitsFields command.now }
    ensures does { DoesCommand (P.seen port.old) (P.seen port.new) fetched.now.address tables.old command.now }
    ensures tables { tables.new ≡ maps_after tables.old command.now }
{
    match *command {
        Command::Mapd {
            device,
            size,
            valid: true,
            ..
        } => replace_device(rt, port, tables, fetched, device, size + 1),
        Command::Mapd { device, .. } => forget_device(rt, port, tables, fetched, device),
        _ => do_plain(rt, port, tables, shape, fetched, command),
    }
}
