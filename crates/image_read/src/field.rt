//! Fields of an object.
ghost use Rattle.std.specs.Prelude.{◌≡◌, ◌<◌, ◌^◌, ℕ, Bool, List, All, Some, IfOk, IfSome, IsTrue};
ghost use Rattle.serde_json.specs.Data.{boolean};
ghost use Rattle.serde_json.specs.Find.{get};
ghost use Rattle.serde_json.specs.View.{view};
ghost use Rattle.gic_resume.specs.GicSave.Cell.{number_data, list_data};
ghost use Rattle.saved_check.specs.SavedGuest.IdealGuests.Words.{GuestShape as Shape, IsShape};

use crate::told::{Told, list};
use saved_check::ListOf;
use serde_json::Value;
use std::alloc::{AllocError, Global};

/// The number of 32 bits in a field. None where there is none.
pub(crate) fn number_in(value: &Value, name: &str) -> Option<u32>
    ensures told { IfSome result (λ n. get name.now (view value.now) ≡ Some (number_data n)) }
    ensures only { (n : ℕ) → n < 2 ^ 32 → get name.now (view value.now) ≡ Some (number_data n) → result ≡ Some n }
{
    let number = value.get(name)?.as_u64()?;
    u32::try_from(number).ok()
}

/// Whether a field holds this number.
pub(crate) fn is_number_in(value: &Value, name: &str, number: u32) -> bool
    ensures told { IsTrue result → get name.now (view value.now) ≡ Some (number_data number) }
    ensures only { get name.now (view value.now) ≡ Some (number_data number) → IsTrue result }
{
    number_in(value, name) == Some(number)
}

/// The flag in a field. None where there is none.
pub(crate) fn flag_in(value: &Value, name: &str) -> Option<bool>
    ensures told { IfSome result (λ flag. get name.now (view value.now) ≡ Some (boolean flag)) }
    ensures only { (flag : Bool) → get name.now (view value.now) ≡ Some (boolean flag) → result ≡ Some flag }
{
    value.get(name)?.as_bool()
}

/// What a field was written of.
pub(crate) fn told_in<T: Told>(
    alloc: Global,
    value: &Value,
    name: &str,
) -> Result<Option<T>, AllocError>
    ensures told { IfOk result (λ found. IfSome found (λ x. get name.now (view value.now) ≡ Some (T.written x))) }
    ensures only { (shape : Shape) (x : T) → IsShape shape → T.can_stand shape x → get name.now (view value.now) ≡ Some (T.written x) → IfOk result (λ found. found ≡ Some x) }
{
    match value.get(name) {
        Some(field) => T::told(alloc, field),
        None => Ok(None),
    }
}

/// What the elements of the array in a field were written of.
pub(crate) fn list_in<T: Told>(
    alloc: Global,
    value: &Value,
    name: &str,
) -> Result<Option<ListOf<T>>, AllocError>
    ensures told { IfOk result (λ found. IfSome found (λ xs. get name.now (view value.now) ≡ Some (list_data T.written xs))) }
    ensures only { (shape : Shape) (xs : List T) → IsShape shape → All (T.can_stand shape) xs → get name.now (view value.now) ≡ Some (list_data T.written xs) → IfOk result (λ found. found ≡ Some xs) }
{
    match value.get(name) {
        Some(field) => list(alloc, field),
        None => Ok(None),
    }
}
