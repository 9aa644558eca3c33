//! Commands that are about several LPIs.
ghost use Rattle.std.specs.Prelude.{◌≡◌, ◌<◌, ◌^◌, IsTrue, None, Some, true, if◌then◌else◌};
ghost use Rattle.port_call.specs.Words.{has_interrupt, Lpi, is_number};
ghost use Rattle.port_call.specs.Registers.{Movall, collection_of as collection_in, IsSound};
ghost use Rattle.port_call.specs.Core.{shape_of};
ghost use Rattle.port_call.specs.Rest.{IsAtEase};
ghost use Rattle.its_exec.specs.Config.{HoldsCommand};
ghost use Rattle.its_exec.specs.Known.{IsUntouched};
ghost use Rattle.its_exec.specs.Plan.{IsFresh, HasLpis};
ghost use Rattle.its_exec.specs.Sweep.{names_vcpus, is_sweep, Picks, SweepsLpi, SweepsAll};

use crate::fetch::Fetched;
use crate::part::{do_some, look_at_target};
use port_call::{CallPart as Part, Command, FIRST_LPI, ItsTables, Port};
use std::sync::Wait;

/// A part, if its LPI is of a collection.
fn in_collection(tables: &ItsTables, icid: u16, lpi: u32, part: Part) -> Option<Part>
    ensures { result ≡ (if is_number icid (collection_in tables.now lpi) then Some part else None) }
{
    match tables.collection_of(lpi) {
        Some(own) if own == icid => Some(part),
        _ => None,
    }
}

/// Whether an LPI is for a vCPU.
fn is_for(target: Option<u32>, vcpu: u32) -> bool
    ensures { result ≡ is_number vcpu target }
{
    match target {
        Some(own) => own == vcpu,
        None => false,
    }
}

/// What a MOVALL does to an LPI, if that is for the first of its vCPUs.
fn moved<P: Port>(
    port: &mut P,
    tables: &ItsTables,
    lpi: u32,
    rdbase: u32,
    second: u32,
) -> Option<Part>
    requires there { IsTrue (has_interrupt (shape_of (P.seen port.old)) (Lpi lpi)) }
    requires ease { IsAtEase (P.seen port.old).local }
    requires vcpu { second < (shape_of (P.seen port.old)).vcpus }
    requires untouched { IsUntouched (P.seen port.old) lpi }
    ensures { Picks (P.seen port.old) (P.seen port.new) tables.now (Movall rdbase second) lpi result }
{
    if !tables.has_target(lpi) {
        return None;
    }
    let target = look_at_target(port, lpi);
    if !is_for(target, rdbase) {
        return None;
    }
    Some(Part::Retarget {
        lpi,
        target: Some(second),
    })
}

/// The vCPU that the LPIs of a collection are for after a MAPC: none where V = 0.
fn mapc_target(rdbase: u64, valid: bool) -> Option<u32>
    requires { valid ≡ true → rdbase < 2 ^ 32 }
    ensures { result ≡ (if valid then Some rdbase else None) }
{
    if valid { Some(rdbase as u32) } else { None }
}

/// What a command that is about several LPIs does to an LPI that an event has, if it is about that.
fn part_for<P: Port>(port: &mut P, tables: &ItsTables, command: &Command, lpi: u32) -> Option<Part>
    requires there { IsTrue (has_interrupt (shape_of (P.seen port.old)) (Lpi lpi)) }
    requires ease { IsAtEase (P.seen port.old).local }
    requires vcpus { IsTrue (names_vcpus (shape_of (P.seen port.old)) command.now) }
    requires sweep { IsTrue (is_sweep command.now) }
    requires untouched { IsUntouched (P.seen port.old) lpi }
    ensures { Picks (P.seen port.old) (P.seen port.new) tables.now command.now lpi result }
{
    match *command {
        Command::Mapc {
            icid,
            rdbase,
            valid,
        } => {
            let target = mapc_target(rdbase, valid);
            in_collection(tables, icid, lpi, Part::Retarget { lpi, target })
        }
        Command::Invall { icid } => in_collection(tables, icid, lpi, Part::Configure { lpi }),
        Command::Movall { rdbase, second } => {
            moved(port, tables, lpi, rdbase as u32, second as u32)
        }
        _ => None,
    }
}

/// Does what a command that is about several LPIs does to an LPI that an event has.
fn sweep_lpi<P: Port, R: Wait>(
    rt: &R,
    port: &mut P,
    tables: &ItsTables,
    fetched: &Fetched,
    command: &Command,
    lpi: u32,
)
    requires there { IsTrue (has_interrupt (shape_of (P.seen port.old)) (Lpi lpi)) }
    requires ease { IsAtEase (P.seen port.old).local }
    requires holds { HoldsCommand (P.seen port.old) fetched.now }
    requires vcpus { IsTrue (names_vcpus (shape_of (P.seen port.old)) command.now) }
    requires sweep { IsTrue (is_sweep command.now) }
    requires untouched { IsUntouched (P.seen port.old) lpi }
    ensures { SweepsLpi (P.seen port.old) (P.seen port.new) fetched.now.address tables.now command.now lpi }
{
    let part = part_for(port, tables, command, lpi);
    do_some(rt, port, fetched, part);
}

/// Goes over the LPIs that events have, in rising INTID, and does the command's part for each that it is about.
pub(crate) fn do_sweep<P: Port, R: Wait>(
    rt: &R,
    port: &mut P,
    tables: &ItsTables,
    fetched: &Fetched,
    command: &Command,
)
    requires sweep { IsTrue (is_sweep command.now) }
    requires sound { IsSound tables.now }
    requires valid { HasLpis (shape_of (P.seen port.old)) tables.now }
    requires ease { IsAtEase (P.seen port.old).local }
    requires holds { HoldsCommand (P.seen port.old) fetched.now }
    requires vcpus { IsTrue (names_vcpus (shape_of (P.seen port.old)) command.now) }
    requires fresh { IsFresh (P.seen port.old) }
    ensures { SweepsAll (P.seen port.old) (P.seen port.new) fetched.now.address tables.now command.now }
{
    let mut from = FIRST_LPI;
    while let Some(lpi) = tables.next_lpi(from) {
        sweep_lpi(rt, port, tables, fetched, command, lpi);
        from = lpi + 1;
    }
}
