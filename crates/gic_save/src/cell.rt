//! What images are made of: numbers and nulls, and lists.
ghost use Rattle.std.specs.Prelude.{◌≡◌, ◌++◌, IfOk, OnOk, map, Some};
ghost use Rattle.serde_json.specs.Data.{Data, array};
ghost use Rattle.serde_json.specs.View.{view, items_of};
ghost use Rattle.gic_save.specs.Cell.{cell_data, flag_cell, list_data};

use serde_json::Value;
use std::alloc::{AllocError, Global};

/// What is written as a JSON value.
pub(crate) trait Written {
    /// The value.
    ghost written: { Self → Data };

    /// The value as it is written. An error where memory for it is refused.
    fn value(&self, alloc: Global) -> Result<Value, AllocError>
        ensures { IfOk result (λ value. view value ≡ written self.now) };
}

/// A number, or null for none.
impl Written for Option<u64> {
    ghost written = { cell_data };

    fn value(&self, _alloc: Global) -> Result<Value, AllocError> {
        Ok(match *self {
            Some(number) => Value::from(number),
            None => Value::Null,
        })
    }
}

/// Adds what these are written as to the elements of an array. An error where memory is refused.
pub(crate) fn push_all<T: Written>(
    alloc: Global,
    items: &[T],
    values: &mut Vec<Value>,
) -> Result<(), AllocError>
    ensures { OnOk result (map view values.new.items ≡ map view values.old.items ++ map T.written items.now) }
{
    for item in items {
        values.push(item.value(alloc)?)?;
    }
    Ok(())
}

/// An array of these.
pub(crate) fn array_of(values: Vec<Value>) -> Value
    ensures { view result ≡ array (items_of (map view values.items)) }
{
    Value::Array(values)
}

/// An array of what these are written as. An error where memory is refused.
pub(crate) fn list<T: Written>(alloc: Global, items: &[T]) -> Result<Value, AllocError>
    ensures { IfOk result (λ value. view value ≡ list_data T.written items.now) }
{
    let mut values = Vec::new(alloc);
    push_all(alloc, items, &mut values)?;
    Ok(Value::Array(values))
}

/// A flag among numbers.
pub(crate) fn flag(flag: bool) -> Option<u64>
    ensures { result ≡ flag_cell flag }
{
    Some(u64::from(flag))
}

/// A number among others.
pub(crate) fn number(number: u32) -> Option<u64>
    ensures { result ≡ Some number }
{
    Some(u64::from(number))
}
