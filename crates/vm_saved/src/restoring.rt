//! How a machine is restored.
ghost use Rattle.std.specs.Prelude.{◌≡◌, IfOk, IfErr, OnErr};
ghost use Rattle.serde_json.specs.View.{view};
ghost use Rattle.serde_json.specs.Data.{Data};
ghost use Rattle.gic_vm.specs.GuestMemory.declared.base.Bases.{Bases as Registers};
ghost use Rattle.saved_take.specs.SavedGuest.IdealGuests.declared.guest.IdealGuest.{IdealGuest as Guest};
ghost use Rattle.vm_saved.specs.Image.{Spells};
ghost use Rattle.vm_saved.specs.Reading.{Tells};
ghost use Rattle.vm_saved.specs.Calls.{IsUnread, Refuses, IsRestored, RestoresOnly};

use crate::read::told_in;
use gic_vm::{Done, Machine};
use image_read::Fault;
use serde_json::Value;
use std::alloc::Global;

/// Why a machine is not restored, which then stays as it was.
#[derive(Clone, Copy, Debug, PartialEq, Eq, Hash)]
pub enum NotRestored {
    /// The bytes are not UTF-8, or no JSON.
    NoJson,
    /// They are no image of a machine: what is amiss, as in the images of runs.
    NoImage(Fault),
    /// They are the image of another machine or run: the guest has another shape, or is not alone, or a step is left.
    Other,
    /// Memory was refused.
    NoMemory,
}

/// The JSON value that bytes spell.
fn value_of(alloc: Global, bytes: &[u8]) -> Result<Value, NotRestored>
    ensures ok { IfOk result (λ value. Spells bytes.now (view value)) }
    ensures err { IfErr result (IsUnread bytes.now) }
{
    match Value::from_slice(alloc, bytes) {
        Ok(value) => Ok(value),
        Err(error) if error.is_memory() => Err(NotRestored::NoMemory),
        Err(_) => Err(NotRestored::NoJson),
    }
}

/// Makes a machine what it was where `save` wrote these bytes of it, or of another one of its shape: its guest, with the levels of its wires, and what its
/// registers keep. Its frames stay where they are. The answer tells the vCPUs whose lines changed.
///
/// Where it is refused the machine stays as it was: `NotRestored::NoJson` exactly where the bytes are not UTF-8 or no JSON; else `NotRestored::NoImage` exactly
/// where the value is no image of a machine, with the fault; else `NotRestored::Other` exactly where it is the image of something else; and
/// `NotRestored::NoMemory` where memory is refused.
#[tactic(auto, using(crate::proofs::RestoreLemmas::err_restores, crate::proofs::RestoreLemmas::ok_restores, crate::proofs::RestoreLemmas::restored_is))]
pub fn restore(alloc: Global, machine: &mut Machine, bytes: &[u8]) -> Result<Done, NotRestored>
    ensures restored { IfOk result (IsRestored bytes.now machine.old machine.new) }
    ensures refused { IfErr result (Refuses bytes.now machine.old.guest.shape) }
    ensures kept { OnErr result (machine.new ≡ machine.old) }
    ensures only { (d : Data) (guest : Guest) (bases : Registers) → Spells bytes.now d → Tells d machine.old.guest.shape guest bases → RestoresOnly guest bases machine.old machine.new result }
{
    let value = match value_of(alloc, bytes) {
        Ok(value) => value,
        Err(refusal) => return Err(refusal),
    };
    let told = match told_in(alloc, &value, &machine.guest().shape) {
        Ok(told) => told,
        Err(refusal) => return Err(refusal),
    };
    Ok(machine.put_back(told.guest, told.bases))
}
