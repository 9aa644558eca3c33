//! The rest of a run.
ghost use Rattle.std.specs.Prelude.{◌≡◌, IfOk};
ghost use Rattle.saved_check.specs.SavedGuest.Whole.{IsValidSaved};
ghost use Rattle.law_saves_go_on.specs.Resume.{resumed};

use crate::told::all_told;
use gic_ideal::eager_from;
use saved_check::{NoMemory, Pes, Saved};
use scn_base::RunOut;
use std::alloc::Global;

/// What is left of a saved run by the ideal controller: the answers of the steps that are left, from the states that were saved on, and how each guest
/// ended. `NoMemory` where memory is refused.
pub fn eager_saved(alloc: Global, saved: &Saved) -> Result<RunOut, NoMemory>
    requires valid { IsValidSaved saved.now }
    ensures { IfOk result (λ out. out ≡ resumed saved.now) }
{
    let scenario = &saved.scenario;
    let guests = scenario.guests.as_slice();
    let states = all_told(alloc, guests, saved.state.as_slice())?;
    let pes = Pes::from(saved.on_pe.as_slice().to_vec(alloc)?);
    let steps = scenario.steps.as_slice();
    eager_from(alloc, guests, states, pes, scenario.lrs, steps)
}
