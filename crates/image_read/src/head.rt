//! All of an image but its steps.
ghost use Rattle.std.specs.Prelude.{◌≡◌, ◌↔◌, ℕ, IsTrue, IfOk, IfSome, Some};
ghost use Rattle.serde_json.specs.View.{view};
ghost use Rattle.saved_check.specs.SavedGuest.ScnSaved.declared.saved.Saved.{Saved as Run};
ghost use Rattle.saved_check.specs.SavedGuest.Whole.{IsValidRun};
ghost use Rattle.image_read.specs.declared.head.Counts.{Counts as ToldCounts};
ghost use Rattle.image_read.specs.Tells.{TellsCounts, AreShort, IsVersioned, TellsHead, without_steps};

use crate::field::{is_number_in, list_in, number_in};
use crate::guest::guests;
use crate::kind::{DONE, GUESTS, LRS, ON_PE, PES, READS, STEPS, VERSION};
use json_field::list_at;
use saved_check::{Saved, Scenario, Steps, VcpuName};
use serde_json::Value;
use std::alloc::{AllocError, Global};

/// The version of the form of images.
const FORM: u32 = 1;

/// The numbers of a run.
#[derive(Clone, Copy)]
pub(crate) struct Counts {
    pes: u32,
    lrs: u32,
    done: u32,
    reads: u32,
}

/// Whether a value has the version of images, and a list of steps.
fn is_versioned(value: &Value) -> bool
    ensures { IsTrue result ↔ IsVersioned (view value.now) }
{
    is_number_in(value, VERSION, FORM) && list_at(value, STEPS).is_some()
}

/// The numbers of a run.
fn told_counts(value: &Value) -> Option<Counts>
    ensures told { IfSome result (TellsCounts (view value.now)) }
    ensures only { (counts : ToldCounts) → AreShort counts → TellsCounts (view value.now) counts → result ≡ Some counts }
{
    Some(Counts {
        pes: number_in(value, PES)?,
        lrs: number_in(value, LRS)?,
        done: number_in(value, DONE)?,
        reads: number_in(value, READS)?,
    })
}

/// A run without its steps.
pub(crate) fn told_head(alloc: Global, value: &Value) -> Result<Option<Saved>, AllocError>
    ensures told { IfOk result (λ found. IfSome found (λ (saved : Run). TellsHead (view value.now) saved × (saved ≡ without_steps saved))) }
    ensures only { (rest : ℕ) (saved : Run) → IsValidRun rest saved → TellsHead (view value.now) saved → IfOk result (λ found. found ≡ Some (without_steps saved)) }
{
    if !is_versioned(value) {
        return Ok(None);
    }
    let Some(counts) = told_counts(value) else {
        return Ok(None);
    };
    let Some(on_pe) = list_in::<Option<VcpuName>>(alloc, value, ON_PE)? else {
        return Ok(None);
    };
    let Some(values) = list_at(value, GUESTS) else {
        return Ok(None);
    };
    let Some(told) = guests(alloc, values)? else {
        return Ok(None);
    };
    let scenario = Scenario {
        pes: counts.pes,
        lrs: counts.lrs,
        guests: told.guests,
        steps: Steps::new(alloc),
    };
    Ok(Some(Saved {
        scenario,
        done: counts.done,
        reads: counts.reads,
        on_pe,
        state: told.states,
    }))
}
