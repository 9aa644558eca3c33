//! The image of a saved run.
ghost use Rattle.std.specs.Prelude.{◌≡◌, IfOk, Some, length};
ghost use Rattle.serde_json.specs.Read.{read};
ghost use Rattle.serde_json.specs.View.{view};
ghost use Rattle.serde_json.specs.Written.{compact_text};
ghost use Rattle.gic_save.specs.Image.{image_of};

use crate::cell::list;
use crate::guest::guests;
use scn_saved::{ListOf, NoMemory, Saved};
use serde_json::{Value, json};
use std::alloc::{AllocError, Global};

/// The bytes of a text.
pub type Bytes = ListOf<u8>;

/// The version of the form of images.
const VERSION: u32 = 1;

/// The image of a saved run, which has a state for each guest, as a JSON value. An error where memory is refused.
pub fn image_value(alloc: Global, saved: &Saved) -> Result<Value, AllocError>
    requires { length saved.now.state ≡ length saved.now.scenario.guests }
    ensures { IfOk result (λ value. view value ≡ image_of saved.now) }
{
    let scenario = &saved.scenario;
    let on_pe = list(alloc, saved.on_pe.as_slice())?;
    let steps = list(alloc, scenario.steps.as_slice())?;
    let guests = guests(alloc, scenario.guests.as_slice(), saved.state.as_slice())?;
    json!(in alloc; {
        "version": VERSION,
        "pes": scenario.pes,
        "lrs": scenario.lrs,
        "done": saved.done,
        "reads": saved.reads,
        "on_pe": on_pe,
        "steps": steps,
        "guests": guests,
    })
}

/// The image of a saved run, which has a state for each guest: the compact text of one JSON object, whose members stand in the order of the bytes of their
/// names, without a newline. It has all of the state, and reads back as the value that it was written from. Each number is
/// an integer in decimal digits. `NoMemory` where memory is refused. It takes time linear in what was saved.
pub fn image(alloc: Global, saved: &Saved) -> Result<Bytes, NoMemory>
    requires { length saved.now.state ≡ length saved.now.scenario.guests }
    ensures text { IfOk result (λ bytes. bytes ≡ compact_text (image_of saved.now)) }
    ensures reads_back { IfOk result (λ bytes. read bytes ≡ Some (image_of saved.now)) }
{
    let text = image_value(alloc, saved)?.to_string(alloc)?;
    Ok(Bytes::from(text.into_bytes()))
}
