//! The image of a machine as it is written.
ghost use Rattle.std.specs.Prelude.{◌≡◌, [], ◌∷◌, ◌++◌, IfOk, OnOk, map};
ghost use Rattle.serde_json.specs.View.{view};
ghost use Rattle.serde_json.specs.Written.{compact_text};
ghost use Rattle.image_read.specs.GicResume.GicSave.Cell.{number_data, list_data, object_data};
ghost use Rattle.saved_take.specs.SavedGuest.IdealGuests.Sound.{IsSound};
ghost use Rattle.vm_saved.specs.Image.{state_saved, run_of, numbers_of, members_of, Spells};
ghost use Rattle.gic_vm.specs.State.{after_reset};

use gic_vm::{Bases, IdealGuest};
use image_read::{
    Bytes, GuestShape, GuestSpec, GuestState, ListOf, NoMemory, PresetList, Saved, Scenario, Steps,
    image_value,
};
use saved_take::{interrupt_count, taken};
use serde_json::{Value, json};
use std::alloc::{AllocError, Global};

/// A guest of this shape, which opens with nothing enabled.
pub(crate) fn spec(alloc: Global, shape: &GuestShape) -> GuestSpec
    ensures { result ≡ after_reset shape.now }
{
    GuestSpec {
        shape: *shape,
        on: false,
        presets: PresetList::new(alloc),
    }
}

/// A list of one element.
fn one<T: Drop>(alloc: Global, element: T) -> Result<ListOf<T>, AllocError>
    ensures { IfOk result (λ list. list ≡ element ∷ []) }
{
    let mut list = ListOf::new(alloc);
    list.push(element)?;
    Ok(list)
}

/// What is saved of a machine's guest.
fn state(alloc: Global, guest: &IdealGuest) -> Result<GuestState, NoMemory>
    requires { IsSound guest.now }
    ensures { IfOk result (λ state. state ≡ state_saved guest.now) }
{
    let spec = spec(alloc, &guest.shape);
    let wires = vec![in alloc; None; interrupt_count(&guest.shape)]?;
    taken(alloc, &spec, wires.as_slice(), guest)
}

/// The run of which the machine's image has the guest.
pub(crate) fn run(alloc: Global, guest: &IdealGuest) -> Result<Saved, NoMemory>
    requires { IsSound guest.now }
    ensures { IfOk result (λ run. run ≡ run_of guest.now) }
{
    let state = state(alloc, guest)?;
    Ok(Saved {
        scenario: Scenario {
            pes: 1,
            lrs: 1,
            guests: one(alloc, spec(alloc, &guest.shape))?,
            steps: Steps::new(alloc),
        },
        done: 0,
        reads: 0,
        on_pe: one(alloc, None)?,
        state: one(alloc, state)?,
    })
}

/// Adds numbers to the elements of an array.
fn push_all(values: &mut Vec<Value>, numbers: &[u64]) -> Result<(), AllocError>
    ensures { OnOk result (map view values.new.items ≡ map view values.old.items ++ map number_data numbers.now) }
{
    for number in numbers {
        values.push(Value::from(*number))?;
    }
    Ok(())
}

/// What the registers keep, as an array of numbers.
fn bases(alloc: Global, bases: &Bases) -> Result<Value, AllocError>
    ensures { IfOk result (λ value. view value ≡ list_data number_data (numbers_of bases.now)) }
{
    let mut values = Vec::new(alloc);
    values.push(Value::from(bases.queue))?;
    push_all(&mut values, &bases.properties)?;
    push_all(&mut values, &bases.pending)?;
    Ok(Value::Array(values))
}

/// The image of a machine with this guest, which the run has, and these registers, as a JSON value.
fn value(alloc: Global, guest: &IdealGuest, run: &Saved, kept: &Bases) -> Result<Value, AllocError>
    requires { run.now ≡ run_of guest.now }
    ensures { IfOk result (λ value. view value ≡ object_data (members_of guest.now kept.now)) }
{
    let bases = bases(alloc, kept)?;
    let image = image_value(alloc, run)?;
    json!(in alloc; {
        "bases": bases,
        "image": image,
    })
}

/// Its text.
pub(crate) fn text(
    alloc: Global,
    guest: &IdealGuest,
    run: &Saved,
    kept: &Bases,
) -> Result<Bytes, AllocError>
    requires { run.now ≡ run_of guest.now }
    ensures text { IfOk result (λ bytes. bytes ≡ compact_text (object_data (members_of guest.now kept.now))) }
    ensures spells { IfOk result (λ bytes. Spells bytes (object_data (members_of guest.now kept.now))) }
{
    let value = value(alloc, guest, run, kept)?;
    Ok(Bytes::from(value.to_vec(alloc)?))
}
