//! A whole saved run.
ghost use Rattle.std.specs.Prelude.{◌≡◌, ◌↔◌, true, IsTrue, IfOk, All};
ghost use Rattle.std.specs.Option.{option_map_or};
ghost use Rattle.saved_guest.specs.IdealGuests.Calls.{IsGoodGuest, shapes_of};
ghost use Rattle.saved_guest.specs.ScnSaved.ScnBase.Standing.{has_vcpu, is_resident as is_resident_on, ResidentsExist};
ghost use Rattle.saved_guest.specs.Whole.{stand_once as stand_once_in, AreValidStates, IsValidRun};
ghost use Rattle.saved_check.specs.Parts.{IsValidScenario, IsValidPlace, AreValidCounts};

use crate::state::is_valid_state;
use saved_guest::{
    GuestSpec, GuestState, MAX_GUESTS, MAX_LIST_REGISTERS, MAX_PES, MAX_STEPS, NoMemory, Saved,
    Scenario, VcpuName,
};
use std::alloc::Global;

/// Whether a vCPU, if there is one, is one of the guests'.
fn exists(guests: &[GuestSpec], resident: Option<VcpuName>) -> bool
    ensures { result ≡ option_map_or (λ name. has_vcpu (shapes_of guests.now) name.guest name.vcpu) resident true }
{
    match resident {
        Some(name) => match guests.get(name.guest as usize) {
            Some(guest) => name.vcpu < guest.shape.vcpus,
            None => false,
        },
        None => true,
    }
}

/// Whether each vCPU that stands on a PE is one of the guests'.
fn exist(guests: &[GuestSpec], pes: &[Option<VcpuName>]) -> bool
    ensures { IsTrue result ↔ ResidentsExist (shapes_of guests.now) pes.now }
{
    pes.iter().all(|resident| exists(guests, *resident))
}

/// Whether a vCPU stands on one of these PEs.
fn is_resident(pes: &[Option<VcpuName>], name: VcpuName) -> bool
    ensures { result ≡ is_resident_on pes.now name.guest name.vcpu }
{
    pes.iter().any(|resident| resident.is_some_and(|other| other.guest == name.guest
        && other.vcpu == name.vcpu))
}

/// Whether no vCPU stands on two PEs.
fn stand_once(pes: &[Option<VcpuName>]) -> bool
    ensures { result ≡ stand_once_in pes.now }
{
    for (pe, resident) in pes.iter().enumerate() {
        if let Some(name) = *resident {
            if is_resident(&pes[pe + 1..], name) {
                return false;
            }
        }
    }
    true
}

/// Whether each guest is good.
fn are_good(guests: &[GuestSpec]) -> bool
    ensures { IsTrue result ↔ All IsGoodGuest guests.now }
{
    guests.iter().all(|guest| guest.is_good())
}

/// Whether there is a valid state for each guest, and no other.
fn are_valid_states(
    alloc: Global,
    guests: &[GuestSpec],
    states: &[GuestState],
) -> Result<bool, NoMemory>
    requires { All IsGoodGuest guests.now }
    ensures { IfOk result (λ valid. IsTrue valid ↔ AreValidStates guests.now states.now) }
{
    if states.len() != guests.len() {
        return Ok(false);
    }
    for (number, guest) in guests.iter().enumerate() {
        if !is_valid_state(alloc, guest, &states[number])? {
            return Ok(false);
        }
    }
    Ok(true)
}

/// Whether a scenario has 1 to 8 PEs with 1 to 16 list registers each, and 1 to 4 guests that are good.
fn is_valid_scenario(scenario: &Scenario) -> bool
    ensures { IsTrue result ↔ IsValidScenario scenario.now }
{
    let guests = scenario.guests.as_slice();
    (1..=MAX_PES).contains(&scenario.pes)
        && (1..=MAX_LIST_REGISTERS).contains(&(scenario.lrs as usize))
        && (1..=MAX_GUESTS).contains(&guests.len())
        && are_good(guests)
}

/// Whether the vCPUs of a run stand on its PEs, each on one at most.
fn is_valid_place(saved: &Saved) -> bool
    ensures { IsTrue result ↔ IsValidPlace saved.now }
{
    let pes = saved.on_pe.as_slice();
    pes.len() == saved.scenario.pes as usize
        && exist(saved.scenario.guests.as_slice(), pes)
        && stand_once(pes)
}

/// Whether no more steps read than were done, and there are few enough with those that are left.
fn are_valid_counts(rest: usize, saved: &Saved) -> bool
    ensures { IsTrue result ↔ AreValidCounts rest saved.now }
{
    let done = saved.done as usize;
    saved.reads <= saved.done && done <= MAX_STEPS && rest <= MAX_STEPS - done
}

/// Whether a run is one that can have been saved between two of its steps, so many of which are left, whatever they are. The steps that
/// it has do not count. `NoMemory` where memory is refused.
pub fn is_valid_run(alloc: Global, rest: usize, saved: &Saved) -> Result<bool, NoMemory>
    ensures { IfOk result (λ valid. IsTrue valid ↔ IsValidRun rest saved.now) }
{
    if !is_valid_scenario(&saved.scenario) || !is_valid_place(saved) {
        return Ok(false);
    }
    if !are_valid_counts(rest, saved) {
        return Ok(false);
    }
    are_valid_states(
        alloc,
        saved.scenario.guests.as_slice(),
        saved.state.as_slice(),
    )
}
