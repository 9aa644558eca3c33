//! What is read back as it was written.
ghost use Rattle.std.specs.Prelude.{◌≡◌, IfOk, IfSome, Some, List, All};
ghost use Rattle.serde_json.specs.Data.{Data};
ghost use Rattle.serde_json.specs.View.{view};
ghost use Rattle.gic_resume.specs.GicSave.Cell.{list_data};
ghost use Rattle.saved_check.specs.SavedGuest.IdealGuests.Words.{GuestShape as Shape, IsShape};

use json_field::list_of;
use saved_check::ListOf;
use serde_json::Value;
use std::alloc::{AllocError, Global};

/// What is read of a value that it was written as.
pub(crate) trait Told: Sized + Drop {
    /// The value.
    ghost written: { Self → Data };
    /// What can stand in the image of a guest with such numbers.
    ghost can_stand: { Shape → Self → Type 0 };

    /// What the value was written of. None where nothing that can stand in an image is written so. An error where memory is refused.
    fn told(alloc: Global, value: &Value) -> Result<Option<Self>, AllocError>
        ensures told { IfOk result (λ found. IfSome found (λ x. written x ≡ view value.now)) }
        ensures only { (shape : Shape) (x : Self) → IsShape shape → can_stand shape x → written x ≡ view value.now → IfOk result (λ found. found ≡ Some x) };
}

/// What the elements of an array were written of, in order.
pub(crate) fn list<T: Told>(alloc: Global, value: &Value) -> Result<Option<ListOf<T>>, AllocError>
    ensures told { IfOk result (λ found. IfSome found (λ xs. list_data T.written xs ≡ view value.now)) }
    ensures only { (shape : Shape) (xs : List T) → IsShape shape → All (T.can_stand shape) xs → list_data T.written xs ≡ view value.now → IfOk result (λ found. found ≡ Some xs) }
{
    let Some(values) = list_of(value) else {
        return Ok(None);
    };
    let mut list = ListOf::new(alloc);
    for value in values {
        let Some(element) = T::told(alloc, value)? else {
            return Ok(None);
        };
        list.push(element)?;
    }
    Ok(Some(list))
}
