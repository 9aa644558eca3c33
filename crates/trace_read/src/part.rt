//! Parts of what an event says.
ghost use Rattle.std.specs.Prelude.{◌≡◌, map};
ghost use Rattle.serde_json.specs.Find.{as_bool};
ghost use Rattle.serde_json.specs.View.{view};
ghost use Rattle.trace_read.specs.Part.{number_or_null as number_or_null_in, is_true as is_true_in, key_in as key_in_data, place_in as place_in_data, kind_in as kind_in_data};

use crate::name::{key_named, kind_named, place_named};
use crate::place::Place;
use floor_calls::{Key, Kind};
use json_field::number_of;
use serde_json::Value;

/// A number, or null for none. None where the value is neither.
pub(crate) fn number_or_null(value: &Value) -> Option<Option<u64>>
    ensures { result ≡ number_or_null_in (view value.now) }
{
    if value.is_null() {
        return Some(None);
    }
    Some(Some(number_of(value)?))
}

/// Whether a value is true.
pub(crate) fn is_true(value: &Value) -> bool
    ensures { result ≡ is_true_in (as_bool (view value.now)) }
{
    value.as_bool() == Some(true)
}

/// The interrupt that a text names.
pub(crate) fn key_in(value: &Value) -> Option<Key>
    ensures { result ≡ key_in_data (view value.now) }
{
    key_named(value.as_str()?)
}

/// The place that a text names.
pub(crate) fn place_in(value: &Value) -> Option<Place>
    ensures { result ≡ place_in_data (view value.now) }
{
    place_named(value.as_str()?)
}

/// The kind that a text names.
pub(crate) fn kind_in(value: &Value) -> Option<Kind>
    ensures { result ≡ kind_in_data (view value.now) }
{
    kind_named(value.as_str()?)
}
