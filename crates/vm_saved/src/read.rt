//! What an image tells of a machine.
ghost use Rattle.std.specs.Prelude.{◌≡◌, ◌↔◌, ◌⊎◌, [], ◌∷◌, None, IsTrue, IfOk, IfErr, MatchResult, option_map, map};
ghost use Rattle.serde_json.specs.View.{view};
ghost use Rattle.saved_take.specs.SavedGuest.IdealGuests.Words.{IsShape};
ghost use Rattle.saved_take.specs.SavedGuest.IdealGuests.Sound.{IsSound};
ghost use Rattle.saved_take.specs.SavedGuest.IdealGuests.declared.guest.IdealGuest.{IdealGuest as Guest};
ghost use Rattle.gic_vm.specs.State.{after_reset};
ghost use Rattle.gic_vm.specs.GuestMemory.declared.base.Bases.{Bases as Registers};
ghost use Rattle.vm_saved.specs.Reading.{numbers_in, bases_of, bases_at, image_at, IsAlone, TellsGuest, Tells};
ghost use Rattle.vm_saved.specs.Calls.{RefusesImage, RefusesValue};

use crate::restoring::NotRestored;
use crate::written::spec;
use gic_vm::{Bases, IdealGuest};
use image_read::{
    Fault, GuestShape, GuestSpec, ListOf, ReadRefusal, SHAPE, Saved, VcpuName, guest_told,
    has_only, list_at, number_of, read_image,
};
use serde_json::Value;
use std::alloc::{AllocError, Global};

/// The field of the registers, and that of the image of the guest.
const BASES: &str = "bases";

const IMAGE: &str = "image";
/// The fields of an image.
const FIELDS: [&str; 2] = [BASES, IMAGE];

/// How many numbers the registers are: GITS_CBASER, and two of each of 32 vCPUs.
const NUMBERS: usize = 65;
/// Where those of GICR_PENDBASER begin among them.
const PENDING: usize = 33;

/// The fault of a value without the fields of an image, each of its kind.
const NO_SHAPE: Fault = Fault {
    code: SHAPE,
    step: 0,
};

/// The numbers of a list. None where an element is none. An error where memory is refused.
fn numbers(alloc: Global, values: &[Value]) -> Result<Option<ListOf<u64>>, AllocError>
    ensures { IfOk result (λ found. found ≡ numbers_in (map view values.now)) }
{
    let mut numbers = ListOf::new(alloc);
    for value in values {
        let Some(number) = number_of(value) else {
            return Ok(None);
        };
        numbers.push(number)?;
    }
    Ok(Some(numbers))
}

/// The registers that these numbers are.
fn registers(numbers: &[u64]) -> Option<Bases>
    ensures { result ≡ bases_of numbers.now }
{
    if numbers.len() != NUMBERS {
        return None;
    }
    Some(Bases {
        queue: numbers[0],
        properties: *numbers[1..].first_chunk::<32>()?,
        pending: *numbers[PENDING..].first_chunk::<32>()?,
    })
}

/// The registers that a value has.
pub(crate) fn bases_in(alloc: Global, value: &Value) -> Result<Option<Bases>, AllocError>
    ensures { IfOk result (λ found. found ≡ bases_at (view value.now)) }
{
    let Some(values) = list_at(value, BASES) else {
        return Ok(None);
    };
    let Some(numbers) = numbers(alloc, values)? else {
        return Ok(None);
    };
    Ok(registers(numbers.as_slice()))
}

/// The image of a guest that a value has.
pub(crate) fn image_in(value: &Value) -> Option<&Value>
    ensures { option_map (λ image. view image.now) result ≡ image_at (view value.now) }
{
    if !has_only(value, &FIELDS) {
        return None;
    }
    value.get(IMAGE)
}

/// Whether these guests are one of this shape alone, which opened with nothing enabled.
fn are_alone(guests: &[GuestSpec], shape: &GuestShape) -> bool
    ensures { IsTrue result ↔ (guests.now ≡ after_reset shape.now ∷ []) }
{
    match guests {
        [guest] => guest.shape == *shape && !guest.on && guest.presets.as_slice().is_empty(),
        _ => false,
    }
}

/// Whether there is one PE, and nobody on it.
fn are_away(pes: &[Option<VcpuName>]) -> bool
    ensures { IsTrue result ↔ (pes.now ≡ None ∷ []) }
{
    matches!(pes, [None])
}

/// Whether a run has a guest of this shape alone, off its PE, and none of its steps is left.
fn is_alone(saved: &Saved, shape: &GuestShape) -> bool
    ensures { IsTrue result ↔ IsAlone shape.now saved.now }
{
    are_alone(saved.scenario.guests.as_slice(), shape)
        && are_away(saved.on_pe.as_slice())
        && saved.scenario.steps.as_slice().is_empty()
}

/// The guest that an image tells which is that of a run with a guest of this shape alone.
#[tactic(auto, using(crate::proofs::ReadLemmas::sound_told))]
fn guest_in(alloc: Global, image: &Value, shape: &GuestShape) -> Result<IdealGuest, NotRestored>
    requires { IsShape shape.now }
    ensures ok { IfOk result (TellsGuest (view image.now) shape.now) }
    ensures sound { IfOk result IsSound }
    ensures shape { IfOk result (λ (guest : Guest). guest.shape ≡ shape.now) }
    ensures bad { IfErr result (RefusesImage (view image.now) shape.now) }
    ensures only { (guest : Guest) → TellsGuest (view image.now) shape.now guest → MatchResult result (λ found. found ≡ guest) (λ why. why ≡ NotRestored.NoMemory) }
{
    let saved = match read_image(alloc, image) {
        Ok(saved) => saved,
        Err(ReadRefusal::Bad(fault)) => return Err(NotRestored::NoImage(fault)),
        Err(ReadRefusal::NoMemory) => return Err(NotRestored::NoMemory),
    };
    if !is_alone(&saved, shape) {
        return Err(NotRestored::Other);
    }
    let spec = spec(alloc, shape);
    let Ok(guest) = guest_told(alloc, &spec, &saved.state.as_slice()[0]) else {
        return Err(NotRestored::NoMemory);
    };
    Ok(guest)
}

/// What an image tells of a machine.
#[derive(Drop)]
pub(crate) struct Told {
    pub(crate) guest: IdealGuest,
    pub(crate) bases: Bases,
}

/// What a value tells of a machine that has a guest of this shape.
#[tactic(auto, using(crate::proofs::ReadLemmas::no_image, crate::proofs::ReadLemmas::no_registers, crate::proofs::ReadLemmas::image_refuses, crate::proofs::ReadLemmas::refused_only, crate::proofs::ReadLemmas::told_only))]
pub(crate) fn told_in(alloc: Global, value: &Value, shape: &GuestShape) -> Result<Told, NotRestored>
    requires { IsShape shape.now }
    ensures ok { IfOk result (λ told. Tells (view value.now) shape.now told.guest told.bases) }
    ensures sound { IfOk result (λ told. IsSound told.guest) }
    ensures shape { IfOk result (λ told. told.guest.shape ≡ shape.now) }
    ensures bad { IfErr result (RefusesValue (view value.now) shape.now) }
    ensures only { (guest : Guest) (bases : Registers) → Tells (view value.now) shape.now guest bases → MatchResult result (λ told. (told.guest ≡ guest) × (told.bases ≡ bases)) (λ why. why ≡ NotRestored.NoMemory) }
{
    let Some(image) = image_in(value) else {
        return Err(NotRestored::NoImage(NO_SHAPE));
    };
    let Ok(found) = bases_in(alloc, value) else {
        return Err(NotRestored::NoMemory);
    };
    let Some(bases) = found else {
        return Err(NotRestored::NoImage(NO_SHAPE));
    };
    match guest_in(alloc, image, shape) {
        Ok(guest) => Ok(Told { guest, bases }),
        Err(refusal) => Err(refusal),
    }
}
