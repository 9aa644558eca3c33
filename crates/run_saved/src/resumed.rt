//! A run that goes on from what was saved.
ghost use Rattle.std.specs.Prelude.{◌≡◌, IfOk};
ghost use Rattle.eager_rest.specs.LawSavesGoOn.SavedTake.SavedGuest.Whole.{IsValidSaved};
ghost use Rattle.eager_rest.specs.LawSavesGoOn.Resume.{resumed};

use eager_rest::all_told;
use eager_rest::check::{Pes, Saved};
use run_seq::{NoMemory, RunOut, SeqPort, Start, ends_of, run_from};
use std::alloc::Global;
use std::sync::Wait;

/// Does the steps that are left of a saved run, as `run` does them, on words that open in the states that were saved, and on PEs on which the
/// vCPUs stand that stood there: the answers of these steps, and how each guest ended. An error where memory is refused, before the
/// first step or after the last one.
pub fn run_saved<R: Wait>(rt: &R, alloc: Global, saved: &Saved) -> Result<RunOut, NoMemory>
    requires valid { IsValidSaved saved.now }
    ensures { IfOk result (λ out. out ≡ resumed saved.now) }
{
    let scenario = &saved.scenario;
    let start = Start {
        guests: scenario.guests.len() as u32,
        lrs: scenario.lrs,
        pes: Pes::from(saved.on_pe.as_slice().to_vec(alloc)?),
    };
    let states = all_told(alloc, scenario.guests.as_slice(), saved.state.as_slice())?;
    let mut port = SeqPort::start_from(alloc, states)?;
    let done = run_from(rt, alloc, &mut port, &start, scenario.steps.as_slice())?;
    let words = port.finish(alloc)?;
    let ends = ends_of(alloc, &scenario.guests, &words, done.cpus.as_slice())?;
    Ok(RunOut {
        answers: done.answers,
        ends,
    })
}
