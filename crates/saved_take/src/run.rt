//! All that is saved of a run.
ghost use Rattle.std.specs.Prelude.{◌≡◌, ◌≤◌, All, IfOk, length, take};
ghost use Rattle.saved_guest.specs.IdealGuests.Calls.{IsGoodGuest, shapes_of};
ghost use Rattle.saved_guest.specs.ScnSaved.ScnBase.declared.step.Mode.TheVariants.{Schedule};
ghost use Rattle.saved_guest.specs.ScnSaved.ScnBase.Good.{IsGood};
ghost use Rattle.saved_guest.specs.ScnSaved.ScnBase.Standing.{IsStanding, opening_standing};
ghost use Rattle.saved_take.specs.Run.{AreStatesOf};
ghost use Rattle.saved_take.specs.Taken.{all_taken as all_taken_of, saved_of, stands_after};

use crate::whole::taken;
use saved_guest::{
    GuestSpec, Guests, IdealGuest, NoMemory, PresetList, Saved, Scenario, Standing, StateList,
    Step, Steps, interrupt_count, is_read,
};
use std::alloc::{AllocError, Global};

/// A guest once more. An error where memory is refused.
fn copied(alloc: Global, guest: &GuestSpec) -> Result<GuestSpec, AllocError>
    ensures { IfOk result (λ copy. copy ≡ guest.now) }
{
    Ok(GuestSpec {
        shape: guest.shape,
        on: guest.on,
        presets: PresetList::from(guest.presets.as_slice().to_vec(alloc)?),
    })
}

/// The guests of a scenario once more. An error where memory is refused.
fn all_copied(alloc: Global, guests: &[GuestSpec]) -> Result<Guests, AllocError>
    ensures { IfOk result (λ copies. copies ≡ guests.now) }
{
    let mut copies = Guests::new(alloc);
    for guest in guests {
        copies.push(copied(alloc, guest)?)?;
    }
    Ok(copies)
}

/// Where the vCPUs stand and how the wires are after the first steps of a scenario. An error where memory is refused.
fn standing_after(
    alloc: Global,
    scenario: &Scenario,
    first: &[Step],
) -> Result<Standing, AllocError>
    requires good { IsGood Schedule scenario.now }
    requires first { first.now ≡ take (length first.now) scenario.now.steps }
    ensures value { IfOk result (λ standing. standing ≡ stands_after first.now (opening_standing scenario.now.pes (shapes_of scenario.now.guests))) }
    ensures fine { IfOk result IsStanding }
{
    let mut standing = Standing::opening(alloc, scenario.pes, scenario.guests.as_slice())?;
    for step in first {
        standing.follow(step);
    }
    Ok(standing)
}

/// What is saved of each guest, where the vCPUs stand so and the wires are so. `NoMemory` where memory is refused.
fn all_taken(
    alloc: Global,
    guests: &[GuestSpec],
    standing: &Standing,
    states: &[IdealGuest],
) -> Result<StateList, NoMemory>
    requires good { All IsGoodGuest guests.now }
    requires fine { IsStanding standing.now }
    requires shapes { standing.now.shapes ≡ shapes_of guests.now }
    requires states { AreStatesOf guests.now states.now }
    ensures { IfOk result (λ list. list ≡ all_taken_of standing.now 0 guests.now states.now) }
{
    let mut list = StateList::new(alloc);
    let mut wires = standing.wires.as_slice();
    for (number, guest) in guests.iter().enumerate() {
        list.push(taken(alloc, guest, wires, &states[number])?)?;
        wires = wires.split_at(interrupt_count(&guest.shape)).1;
    }
    Ok(list)
}

/// What is saved of a run of which so many steps were done, which left the guests in these states, one for each guest. The
/// steps that are left are kept, and where the vCPUs stand. `NoMemory` where memory is refused.
pub fn saved(
    alloc: Global,
    scenario: &Scenario,
    done: u32,
    states: &[IdealGuest],
) -> Result<Saved, NoMemory>
    requires good { IsGood Schedule scenario.now }
    requires steps { done ≤ length scenario.now.steps }
    requires states { AreStatesOf scenario.now.guests states.now }
    ensures { IfOk result (λ saved. saved ≡ saved_of scenario.now done states.now) }
{
    let guests = scenario.guests.as_slice();
    let (first, rest) = scenario.steps.as_slice().split_at(done as usize);
    let standing = standing_after(alloc, scenario, first)?;
    Ok(Saved {
        scenario: Scenario {
            pes: scenario.pes,
            lrs: scenario.lrs,
            guests: all_copied(alloc, guests)?,
            steps: Steps::from(rest.to_vec(alloc)?),
        },
        done,
        reads: first.iter().filter(|step| is_read(step)).count() as u32,
        state: all_taken(alloc, guests, &standing, states)?,
        on_pe: standing.pes,
    })
}
