//! The kinds of what stands in an image.
ghost use Rattle.std.specs.Prelude.{◌≡◌, map};
ghost use Rattle.std.specs.List.{list_all};
ghost use Rattle.serde_json.specs.View.{view};
ghost use Rattle.gic_resume.specs.Kind.{is_number as is_number_data, is_text as is_text_data, is_flag as is_flag_data, is_row as is_row_data, is_rows as is_rows_data, are_named as are_named_data, is_named_row as is_named_row_data, is_list, are_steps as are_steps_data, is_field, has_guest_fields as has_guest_fields_data, is_guest as is_guest_data, is_image as is_image_data};

use json_field::{has_only, list_of};
use serde_json::Value;

pub(crate) const VERSION: &str = "version";

pub(crate) const PES: &str = "pes";

pub(crate) const LRS: &str = "lrs";

pub(crate) const DONE: &str = "done";

pub(crate) const READS: &str = "reads";

pub(crate) const ON_PE: &str = "on_pe";

pub(crate) const STEPS: &str = "steps";

pub(crate) const GUESTS: &str = "guests";
/// The fields of an image.
const IMAGE_FIELDS: [&str; 8] = [VERSION, PES, LRS, DONE, READS, ON_PE, STEPS, GUESTS];

pub(crate) const SHAPE: &str = "shape";

pub(crate) const ON: &str = "on";

pub(crate) const IRQS: &str = "irqs";

pub(crate) const GICD: &str = "gicd";

pub(crate) const CPU: &str = "cpu";

pub(crate) const REC: &str = "rec";

pub(crate) const REDIST: &str = "redist";

pub(crate) const ITS: &str = "its";

pub(crate) const DEV: &str = "dev";

pub(crate) const EVT: &str = "evt";

pub(crate) const COL: &str = "col";

pub(crate) const RAM: &str = "ram";
/// The fields of a guest.
const GUEST_FIELDS: [&str; 12] = [
    SHAPE, ON, IRQS, GICD, CPU, REC, REDIST, ITS, DEV, EVT, COL, RAM,
];

fn is_number(value: &Value) -> bool
    ensures { result ≡ is_number_data (view value.now) }
{
    value.is_null() || value.as_u64().is_some()
}

fn is_text(value: &Value) -> bool
    ensures { result ≡ is_text_data (view value.now) }
{
    value.is_null() || value.as_str().is_some()
}

fn is_flag(value: &Value) -> bool
    ensures { result ≡ is_flag_data (view value.now) }
{
    value.is_null() || value.as_bool().is_some()
}

fn all_numbers(values: &[Value]) -> bool
    ensures { result ≡ list_all (λ value. is_number_data (view value)) values.now }
{
    values.iter().all(|value| is_number(value))
}

fn are_numbers(values: &[Value]) -> bool
    ensures { result ≡ list_all is_number_data (map view values.now) }
{
    all_numbers(values)
}

/// A list of numbers.
fn is_row(value: &Value) -> bool
    ensures { result ≡ is_row_data (view value.now) }
{
    match list_of(value) {
        Some(values) => are_numbers(values),
        None => value.is_null(),
    }
}

fn all_rows(values: &[Value]) -> bool
    ensures { result ≡ list_all (λ value. is_row_data (view value)) values.now }
{
    values.iter().all(|value| is_row(value))
}

fn are_rows(values: &[Value]) -> bool
    ensures { result ≡ list_all is_row_data (map view values.now) }
{
    all_rows(values)
}

/// A list of lists of numbers.
fn is_rows(value: &Value) -> bool
    ensures { result ≡ is_rows_data (view value.now) }
{
    match list_of(value) {
        Some(values) => are_rows(values),
        None => value.is_null(),
    }
}

/// Numbers behind a text.
fn are_named(values: &[Value]) -> bool
    ensures { result ≡ are_named_data (map view values.now) }
{
    match values {
        [name, numbers @ ..] => is_text(name) && are_numbers(numbers),
        [] => true,
    }
}

fn is_named_row(value: &Value) -> bool
    ensures { result ≡ is_named_row_data (view value.now) }
{
    match list_of(value) {
        Some(values) => are_named(values),
        None => value.is_null(),
    }
}

fn all_named_rows(values: &[Value]) -> bool
    ensures { result ≡ list_all (λ value. is_named_row_data (view value)) values.now }
{
    values.iter().all(|value| is_named_row(value))
}

fn are_named_rows(values: &[Value]) -> bool
    ensures { result ≡ list_all is_named_row_data (map view values.now) }
{
    all_named_rows(values)
}

fn is_named_rows(value: &Value) -> bool
    ensures { result ≡ is_list is_named_row_data (view value.now) }
{
    match list_of(value) {
        Some(values) => are_named_rows(values),
        None => value.is_null(),
    }
}

fn are_steps(value: &Value) -> bool
    ensures { result ≡ are_steps_data (view value.now) }
{
    value.is_null() || list_of(value).is_some()
}

fn has_number(value: &Value, name: &str) -> bool
    ensures { result ≡ is_field name.now is_number_data (view value.now) }
{
    match value.get(name) {
        Some(field) => is_number(field),
        None => false,
    }
}

fn has_flag(value: &Value, name: &str) -> bool
    ensures { result ≡ is_field name.now is_flag_data (view value.now) }
{
    match value.get(name) {
        Some(field) => is_flag(field),
        None => false,
    }
}

fn has_row(value: &Value, name: &str) -> bool
    ensures { result ≡ is_field name.now is_row_data (view value.now) }
{
    match value.get(name) {
        Some(field) => is_row(field),
        None => false,
    }
}

fn has_rows(value: &Value, name: &str) -> bool
    ensures { result ≡ is_field name.now is_rows_data (view value.now) }
{
    match value.get(name) {
        Some(field) => is_rows(field),
        None => false,
    }
}

fn has_named_rows(value: &Value, name: &str) -> bool
    ensures { result ≡ is_field name.now (is_list is_named_row_data) (view value.now) }
{
    match value.get(name) {
        Some(field) => is_named_rows(field),
        None => false,
    }
}

fn has_steps(value: &Value, name: &str) -> bool
    ensures { result ≡ is_field name.now are_steps_data (view value.now) }
{
    match value.get(name) {
        Some(field) => are_steps(field),
        None => false,
    }
}

/// Whether each field of a guest is there, and of its kind.
fn has_guest_fields(value: &Value) -> bool
    ensures { result ≡ has_guest_fields_data (view value.now) }
{
    has_only(value, &GUEST_FIELDS)
        && has_row(value, SHAPE)
        && has_flag(value, ON)
        && has_rows(value, IRQS)
        && has_number(value, GICD)
        && has_rows(value, CPU)
        && has_named_rows(value, REC)
        && has_rows(value, REDIST)
        && has_row(value, ITS)
        && has_rows(value, DEV)
        && has_rows(value, EVT)
        && has_rows(value, COL)
        && has_rows(value, RAM)
}

fn is_guest(value: &Value) -> bool
    ensures { result ≡ is_guest_data (view value.now) }
{
    value.is_null() || has_guest_fields(value)
}

fn all_guests(values: &[Value]) -> bool
    ensures { result ≡ list_all (λ value. is_guest_data (view value)) values.now }
{
    values.iter().all(|value| is_guest(value))
}

fn are_guests(values: &[Value]) -> bool
    ensures { result ≡ list_all is_guest_data (map view values.now) }
{
    all_guests(values)
}

fn is_guests(value: &Value) -> bool
    ensures { result ≡ is_list is_guest_data (view value.now) }
{
    match list_of(value) {
        Some(values) => are_guests(values),
        None => value.is_null(),
    }
}

fn has_guests(value: &Value, name: &str) -> bool
    ensures { result ≡ is_field name.now (is_list is_guest_data) (view value.now) }
{
    match value.get(name) {
        Some(field) => is_guests(field),
        None => false,
    }
}

/// Whether a value has the shape of an image: each field is there, and of its kind. A null is of each kind.
pub(crate) fn is_image(value: &Value) -> bool
    ensures { result ≡ is_image_data (view value.now) }
{
    has_only(value, &IMAGE_FIELDS)
        && has_number(value, VERSION)
        && has_number(value, PES)
        && has_number(value, LRS)
        && has_number(value, DONE)
        && has_number(value, READS)
        && has_rows(value, ON_PE)
        && has_steps(value, STEPS)
        && has_guests(value, GUESTS)
}
