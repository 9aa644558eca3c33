//! How a machine is saved.
ghost use Rattle.std.specs.Prelude.{◌≡◌, Err, IfOk};
ghost use Rattle.vm_saved.specs.Image.{CanBeSaved, IsSaved};

use crate::written::{run, text};
use gic_vm::Machine;
use image_read::{Bytes, is_valid_run};
use saved_take::is_stored;
use std::alloc::Global;

/// Why a machine is not saved.
#[derive(Clone, Copy, Debug, PartialEq, Eq, Hash)]
pub enum NotSaved {
    /// The state of the machine is none that an image tells.
    Untold,
    /// Memory was refused.
    NoMemory,
}

/// How many steps of a machine's run are left.
const NONE_LEFT: usize = 0;

/// The image of a machine, as the bytes of one line of JSON without a newline: `restore` makes a machine of the same shape what this one is, but for the number
/// of a fault by which nothing is stalled. The machine stays as it is.
///
/// `NotSaved::Untold` exactly where the state is none that can have been saved, so that what would be written did not read again: no call of a machine is known
/// that leaves it so. `NotSaved::NoMemory` where memory is refused.
#[tactic(auto, using(crate::proofs::RestoreLemmas::saved_is))]
pub fn save(alloc: Global, machine: &Machine) -> Result<Bytes, NotSaved>
    ensures saved { IfOk result (IsSaved machine.now) }
    ensures untold { result ≡ Err NotSaved.Untold → ¬ CanBeSaved machine.now }
{
    let guest = machine.guest();
    let kept = machine.bases();
    let Ok(run) = run(alloc, guest) else {
        return Err(NotSaved::NoMemory);
    };
    let Ok(is_valid) = is_valid_run(alloc, NONE_LEFT, &run) else {
        return Err(NotSaved::NoMemory);
    };
    if !is_valid || !is_stored(guest) {
        return Err(NotSaved::Untold);
    }
    let Ok(bytes) = text(alloc, guest, &run, &kept) else {
        return Err(NotSaved::NoMemory);
    };
    Ok(bytes)
}
