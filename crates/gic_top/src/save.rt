//! A run that is saved after some of its steps, and one that goes on from what was saved.

ghost use Rattle.std.specs.Prelude.{◌≡◌, ◌≤◌, IfOk, IfErr, Ok, length};
ghost use Rattle.serde_json.specs.View.{view};
ghost use Rattle.gic_host.specs.ScnRead.Reading.{Refuses};
ghost use Rattle.gic_host.specs.ScnRead.ScnBase.Good.{IsGood};
ghost use Rattle.gic_host.specs.ScnRead.ScnBase.declared.step.Mode.TheVariants.{Schedule};
ghost use Rattle.image_read.specs.GicResume.SavedGuest.Whole.{IsValidSaved};
ghost use Rattle.gic_top.specs.Tool.{first_steps_in, save_text, resume_text};

use gic_host::report::{Bytes, text_saved};
use gic_host::scenarios::{Fault, Mode, NoMemory, ReadRefusal, Scenario, read};
use image_read::{Saved, image};
use run_saved::{run_saved, run_until};
use serde_json::Value;
use std::alloc::Global;
use std::sync::Wait;

/// The code of a scenario that has fewer steps than are to be done: one past those of images.
pub const STEP_RANGE: u8 = 13;
/// The step of a fault outside of the steps.
const OUTSIDE: u32 = 0;

/// The scenario that a value says, of which so many steps are to be done.
pub(crate) fn read_first(alloc: Global, value: &Value, steps: u32) -> Result<Scenario, ReadRefusal>
    ensures ok { IfOk result (λ scenario. first_steps_in steps (view value.now) ≡ Ok scenario) }
    ensures good { IfOk result (IsGood Schedule) }
    ensures enough { IfOk result (λ scenario. steps ≤ length scenario.steps) }
    ensures bad { IfErr result (Refuses (first_steps_in steps (view value.now))) }
{
    let scenario = read(alloc, value, Mode::Schedule)?;
    if scenario.steps.len() < steps as usize {
        return Err(ReadRefusal::Bad(Fault {
            code: STEP_RANGE,
            step: OUTSIDE,
        }));
    }
    Ok(scenario)
}

/// The line of the image of a scenario after so many of its steps. No step of them is shown to a watch.
pub(crate) fn saved_line<R: Wait>(
    rt: &R,
    alloc: Global,
    scenario: &Scenario,
    steps: u32,
) -> Result<Bytes, NoMemory>
    requires good { IsGood Schedule scenario.now }
    requires enough { steps ≤ length scenario.now.steps }
    ensures { IfOk result (λ line. line ≡ save_text steps scenario.now) }
{
    let saved = run_until(rt, alloc, scenario, steps)?;
    let mut line = image(alloc, &saved)?;
    line.push(b'\n')?;
    Ok(line)
}

/// The text of what is left of a saved run. No step of it is shown to a watch.
pub(crate) fn resumed_text<R: Wait>(rt: &R, alloc: Global, saved: &Saved) -> Result<Bytes, NoMemory>
    requires { IsValidSaved saved.now }
    ensures { IfOk result (λ text. text ≡ resume_text saved.now) }
{
    let out = run_saved(rt, alloc, saved)?;
    text_saved(alloc, saved, &out)
}
