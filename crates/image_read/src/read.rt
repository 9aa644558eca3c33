//! The reading of an image.
ghost use Rattle.std.specs.Prelude.{◌≡◌, IfOk, IfErr, OnOk};
ghost use Rattle.serde_json.specs.View.{view};
ghost use Rattle.saved_check.specs.SavedGuest.ScnSaved.declared.saved.Saved.{Saved as Run};
ghost use Rattle.saved_check.specs.SavedGuest.ScnSaved.ScnBase.declared.fault.Fault.{Fault as Wrong};
ghost use Rattle.gic_resume.specs.Reading.{IsImage, IsNoImage};
ghost use Rattle.image_read.specs.Tells.{without_steps};
ghost use Rattle.image_read.specs.Read.{Refuses, IsOnly, IsTold};

use crate::head::told_head;
use crate::kind::{STEPS, is_image};
use json_field::elements_at;
use saved_check::{Fault, Mode, SHAPE, Saved, Scenario, Steps, is_valid_run, standing};
use scn_read::{ReadRefusal, steps};
use serde_json::Value;
use std::alloc::Global;

/// The code of what has the shape of an image, and is none: one past those of scenarios and of words.
pub const BAD_IMAGE: u8 = 12;
/// The step of a fault outside of the steps.
const OUTSIDE: u32 = 0;

/// A fault outside of the steps.
fn outside(code: u8) -> ReadRefusal
    ensures { result ≡ ReadRefusal.Bad (record { code = code; step = 0 }) }
{
    ReadRefusal::Bad(Fault {
        code,
        step: OUTSIDE,
    })
}

/// The run that a value tells, without its steps.
fn told_run(alloc: Global, value: &Value) -> Result<Saved, ReadRefusal>
    ensures ok { IfOk result (λ (saved : Run). IsTold (view value.now) saved × (saved ≡ without_steps saved)) }
    ensures bad { IfErr result (Refuses (view value.now)) }
    ensures only { (saved : Run) → IsTold (view value.now) saved → IsOnly (without_steps saved) result }
{
    if !is_image(value) {
        return Err(outside(SHAPE));
    }
    let Some(saved) = told_head(alloc, value)? else {
        return Err(outside(BAD_IMAGE));
    };
    let Ok(is_valid) = is_valid_run(alloc, elements_at(value, STEPS).len(), &saved) else {
        return Err(ReadRefusal::NoMemory);
    };
    if !is_valid {
        return Err(outside(BAD_IMAGE));
    }
    Ok(saved)
}

/// A run with other steps.
fn with_steps(saved: Saved, steps: Steps) -> Saved
    ensures { result ≡ record saved { scenario = record saved.scenario { steps = steps } } }
{
    let Saved {
        scenario,
        done,
        reads,
        on_pe,
        state,
    } = saved;
    let Scenario {
        pes,
        lrs,
        guests,
        ..
    } = scenario;
    Saved {
        scenario: Scenario {
            pes,
            lrs,
            guests,
            steps,
        },
        done,
        reads,
        on_pe,
        state,
    }
}

/// The saved run that a JSON value is the image of.
///
/// A value that is none is `Bad`: with code 1 and step 0 where it has not the fields of an image, each of its kind; with code 12 and step 0
/// where it has, and no run that can have been saved has them; else with the fault of the first of its steps that has one, as
/// in a scenario, from where the vCPUs stand and how the wires are, and numbered after those that were done. Numbers are
/// unsigned integers below 2^64, and in the steps texts of hexadecimal digits too. Where memory is refused, the answer is `NoMemory`.
pub fn read_image(alloc: Global, value: &Value) -> Result<Saved, ReadRefusal>
    ensures ok { IfOk result (IsImage (view value.now)) }
    ensures bad { IfErr result (Refuses (view value.now)) }
    ensures only { (saved : Run) → IsImage (view value.now) saved → IsOnly saved result }
    ensures sure { OnOk result ((fault : Wrong) → ¬ IsNoImage (view value.now) fault) }
{
    let saved = told_run(alloc, value)?;
    let standing = standing(alloc, &saved)?;
    let values = elements_at(value, STEPS);
    let steps = steps(alloc, values, Mode::Schedule, standing, saved.done + 1)?;
    Ok(with_steps(saved, steps))
}
