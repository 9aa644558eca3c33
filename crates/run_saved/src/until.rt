//! A run that is broken off.
ghost use Rattle.std.specs.Prelude.{◌≡◌, ◌≤◌, IfOk, length};
ghost use Rattle.run_seq.specs.GicIdeal.ScnBase.declared.step.Mode.TheVariants.{Schedule};
ghost use Rattle.run_seq.specs.GicIdeal.ScnBase.Good.{IsGood};
ghost use Rattle.eager_rest.specs.LawSavesGoOn.SavedTake.Taken.{saved_of};
ghost use Rattle.eager_rest.specs.LawSavesGoOn.Resume.{reached};

use eager_rest::check::Saved;
use eager_rest::saved;
use run_seq::{NoMemory, Scenario, SeqPort, Start, run_from, states_of};
use std::alloc::Global;
use std::sync::Wait;

/// Does the first steps of a scenario, as `run` does, and tells what is saved of it then: the ideal controller's states after
/// these steps. The scenario has so many steps. An error where memory is refused, before the first step or after the last one.
pub fn run_until<R: Wait>(
    rt: &R,
    alloc: Global,
    scenario: &Scenario,
    steps: u32,
) -> Result<Saved, NoMemory>
    requires good { IsGood Schedule scenario.now }
    requires steps { steps ≤ length scenario.now.steps }
    ensures { IfOk result (λ saved. saved ≡ saved_of scenario.now steps (reached scenario.now steps)) }
{
    let start = Start::of(alloc, scenario)?;
    let mut port = SeqPort::start(alloc, scenario)?;
    let first = scenario.steps.as_slice().split_at(steps as usize).0;
    let done = run_from(rt, alloc, &mut port, &start, first)?;
    let words = port.finish(alloc)?;
    let states = states_of(alloc, &scenario.guests, words, done.cpus.as_slice())?;
    saved(alloc, scenario, steps, states.as_slice())
}
