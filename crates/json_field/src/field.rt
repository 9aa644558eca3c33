//! What the fields of a JSON object hold.
ghost use Rattle.std.specs.Prelude.{◌≡◌, ◌<◌, ◌≤◌, not, find, IfSome, option_map, option_copied, length, map, string_bytes};
ghost use Rattle.std.specs.List.{list_all, list_any};
ghost use Rattle.std.specs.Str.{bytes_eq};
ghost use Rattle.std.specs.BTreeMap.{keys};
ghost use Rattle.serde_json.specs.View.{view};
ghost use Rattle.json_field.specs.Field.{hex_digit as hex_digit_of, hex_digits as hex_digits_after, hex_number as hex_number_of, number_of as number_in, has_only as has_only_of, other_field as other_field_of, list_of as list_in, number_at as number_in_field, number_or as number_or_default, flag_or as flag_or_default, flag_at as flag_in_field, text_at as text_in_field, list_at as list_in_field, elements_at as elements_in_field, list_or_empty as list_or_none, pair_at as pair_in_field};

use serde_json::{Map, Value};

/// What a hexadecimal text begins with.
const HEX_PREFIX: &str = "0x";
/// The most digits of a hexadecimal text, which has at least one.
const MAX_HEX_DIGITS: usize = 16;
/// How many digits there are.
const HEX_BASE: u32 = 16;

/// The value of a hexadecimal digit of either case.
fn hex_digit(byte: u8) -> Option<u64>
    ensures value { result ≡ hex_digit_of byte }
    ensures small { IfSome result (λ digit. digit < HEX_BASE) }
{
    char::from(byte).to_digit(HEX_BASE).map(u64::from)
}

/// The number that at most 16 digits spell.
#[tactic(auto, using(crate::proofs::FieldLemmas::hex_step, crate::proofs::FieldLemmas::hex_fits))]
fn hex_digits(digits: &[u8]) -> Option<u64>
    requires { length digits.now ≤ MAX_HEX_DIGITS }
    ensures { result ≡ hex_digits_after 0 digits.now }
{
    let mut number = 0;
    for digit in digits {
        number = u64::from(HEX_BASE) * number + hex_digit(*digit)?;
    }
    Some(number)
}

/// The number that a text spells: 0x and 1 to 16 hexadecimal digits.
fn hex_number(text: &str) -> Option<u64>
    ensures { result ≡ hex_number_of text.now }
{
    let bytes = text.as_bytes();
    let start = HEX_PREFIX.len();
    if bytes.len() <= start || bytes.len() > start + MAX_HEX_DIGITS {
        return None;
    }
    if &bytes[..start] != HEX_PREFIX.as_bytes() {
        return None;
    }
    hex_digits(&bytes[start..])
}

/// The number that a value spells: an unsigned integer below 2^64 that is written without a sign, a fraction or an
/// exponent, or a text of `0x` and 1 to 16 hexadecimal digits of either case. None for every other value.
pub fn number_of(value: &Value) -> Option<u64>
    ensures { result ≡ number_in (view value.now) }
{
    match value {
        Value::Number(number) => number.as_u64(),
        Value::String(text) => hex_number(text.as_str()),
        _ => None,
    }
}

/// The elements of an array. None where the value is no array.
#[tactic(auto, using(crate::proofs::FieldLemmas::list_of_array))]
pub fn list_of(value: &Value) -> Option<&[Value]>
    ensures { option_map (λ values. map view values.now) result ≡ list_in (view value.now) }
{
    value.as_array().map(Vec::as_slice)
}

/// The number in a field that has to be there. None where there is no such field, or no number in it.
pub fn number_at(value: &Value, name: &str) -> Option<u64>
    ensures { result ≡ number_in_field name.now (view value.now) }
{
    number_of(value.get(name)?)
}

/// The number in a field, or the default where there is no such field. None where the field holds no number.
pub fn number_or(value: &Value, name: &str, default: u64) -> Option<u64>
    ensures { result ≡ number_or_default name.now default (view value.now) }
{
    match value.get(name) {
        Some(field) => number_of(field),
        None => Some(default),
    }
}

/// The truth value in a field, or the default where there is no such field. None where the field holds none.
pub fn flag_or(value: &Value, name: &str, default: bool) -> Option<bool>
    ensures { result ≡ flag_or_default name.now default (view value.now) }
{
    match value.get(name) {
        Some(field) => field.as_bool(),
        None => Some(default),
    }
}

/// The truth value in a field that has to be there. None where there is no such field, or none in it.
pub fn flag_at(value: &Value, name: &str) -> Option<bool>
    ensures { result ≡ flag_in_field name.now (view value.now) }
{
    value.get(name)?.as_bool()
}

/// The text in a field that has to be there. None where there is no such field, or no text in it.
pub fn text_at<'v>(value: &'v Value, name: &str) -> Option<&'v str>
    ensures { option_copied result ≡ text_in_field name.now (view value.now) }
{
    value.get(name)?.as_str()
}

/// The elements of the array in a field that has to be there. None where there is no such field, or no array in it.
pub fn list_at<'v>(value: &'v Value, name: &str) -> Option<&'v [Value]>
    ensures { option_map (λ values. map view values.now) result
        ≡ list_in_field name.now (view value.now) }
{
    list_of(value.get(name)?)
}

/// The elements of the array in a field, or no element where there is no such field or no array in it.
pub fn elements_at<'v>(value: &'v Value, name: &str) -> &'v [Value]
    ensures { map view result.now ≡ elements_in_field name.now (view value.now) }
{
    match list_at(value, name) {
        Some(values) => values,
        None => &[],
    }
}

/// The elements of the array in a field, or no element where there is no such field. None where the field holds no
/// array.
pub fn list_or_empty<'v>(value: &'v Value, name: &str) -> Option<&'v [Value]>
    ensures { option_map (λ values. map view values.now) result
        ≡ list_or_none name.now (view value.now) }
{
    match value.get(name) {
        Some(field) => list_of(field),
        None => Some(&[]),
    }
}

/// The two numbers of the array in a field that has to be there. None where there is no such field, or no array of two
/// numbers in it.
pub fn pair_at(value: &Value, name: &str) -> Option<(u64, u64)>
    ensures { result ≡ pair_in_field name.now (view value.now) }
{
    match list_at(value, name)? {
        [first, second] => Some((number_of(first)?, number_of(second)?)),
        _ => None,
    }
}

/// Whether a text is one of these names.
fn is_among(text: &str, names: &[&str]) -> bool
    ensures { result ≡ list_any (λ name. bytes_eq text.now name.now) names.now }
{
    names.iter().any(|name| text == *name)
}

/// Whether each name of a field is one of these.
fn are_among(fields: &Map<String, Value>, allowed: &[&str]) -> bool
    ensures { result
        ≡ list_all (λ key. list_any (λ name. bytes_eq (string_bytes key) name.now) allowed.now) (keys fields.now) }
{
    fields.keys().all(|name| is_among(name.as_str(), allowed))
}

/// Whether the value is an object, each field of which has one of these names.
#[tactic(auto, using(crate::proofs::FieldLemmas::has_only_other))]
pub fn has_only(value: &Value, allowed: &[&str]) -> bool
    ensures { result ≡ has_only_of (map (λ name. name.now) allowed.now) (view value.now) }
{
    match value.as_object() {
        Some(fields) => are_among(fields, allowed),
        None => false,
    }
}

/// The first name of a field that is none of these.
fn first_other<'v>(fields: &'v Map<String, Value>, allowed: &[&str]) -> Option<&'v String>
    ensures { option_copied result
        ≡ find (λ key. not (list_any (λ name. bytes_eq (string_bytes key) name.now) allowed.now)) (keys fields.now) }
{
    fields.keys().find(|name| !is_among(name.as_str(), allowed))
}

/// The first field of an object, in the order of its fields, that has none of these names. None where each has one, or the value
/// is no object.
pub fn other_field<'v>(value: &'v Value, allowed: &[&str]) -> Option<&'v str>
    ensures { option_copied result ≡ other_field_of (map (λ name. name.now) allowed.now) (view value.now) }
{
    match value.as_object() {
        Some(fields) => match first_other(fields, allowed) {
            Some(name) => Some(name.as_str()),
            None => None,
        },
        None => None,
    }
}
