//! How numbers are written, and which fields an object has.
use json_field::{
    flag_at, flag_or, has_only, list_or_empty, number_of, number_or, pair_at, text_at,
};
use serde_json::Value;
use std::alloc::Global;
use std::test::Fail;

/// Values, each with the number that it spells.
const NUMBERS: [(&str, Option<u64>); 24] = [
    ("0", Some(0)),
    ("1", Some(1)),
    ("18446744073709551615", Some(18446744073709551615)),
    (r#""0x0""#, Some(0)),
    (r#""0xf""#, Some(15)),
    (r#""0xF""#, Some(15)),
    (r#""0xaB09""#, Some(43785)),
    (r#""0x00000000000000ff""#, Some(255)),
    (r#""0xffffffffffffffff""#, Some(18446744073709551615)),
    ("18446744073709551616", None),
    ("-1", None),
    ("-0", None),
    ("1.0", None),
    ("1e0", None),
    ("true", None),
    ("null", None),
    ("[1]", None),
    ("{}", None),
    (r#""1""#, None),
    (r#""""#, None),
    (r#""0x""#, None),
    (r#""0X1""#, None),
    (r#""0xg""#, None),
    (r#""0x00000000000000001""#, None),
];

/// The number that a text of a value spells.
fn number_in(alloc: Global, text: &str) -> Result<Option<u64>, Fail> {
    Ok(number_of(&Value::from_str(alloc, text)?))
}

#[test]
fn reads_numbers(rt: HostRuntime) -> Result<(), Fail> {
    for (text, want) in NUMBERS {
        assert!(rt; number_in(rt.alloc(), text)? == want);
    }
    Ok(())
}

/// An object, in which a field stands twice.
const OBJECT: &str = r#"{"a":7,"b":true,"c":"x","d":[1,"0x2"],"e":[1],"a":8}"#;

/// Whether the numbers of the object are read: of a field that stands twice the last one counts, and the default where there is no
/// such field.
fn numbers_are_read(object: &Value) -> bool {
    number_or(object, "a", 1) == Some(8)
        && number_or(object, "b", 1).is_none()
        && number_or(object, "z", 1) == Some(1)
}

/// Whether its flag, its text and its lists are read.
fn others_are_read(object: &Value) -> bool {
    flag_or(object, "b", false) == Some(true)
        && flag_at(object, "a").is_none()
        && text_at(object, "c") == Some("x")
        && list_or_empty(object, "z").is_some_and(|list| list.is_empty())
}

/// Whether its pair is read, and a list of one number is none.
fn pairs_are_read(object: &Value) -> bool {
    pair_at(object, "d") == Some((1, 2)) && pair_at(object, "e").is_none()
}

#[test]
fn reads_fields(rt: HostRuntime) -> Result<(), Fail> {
    let object = Value::from_str(rt.alloc(), OBJECT)?;
    assert!(rt; numbers_are_read(&object));
    assert!(rt; others_are_read(&object));
    assert!(rt; pairs_are_read(&object));
    Ok(())
}

#[test]
fn knows_the_fields(rt: HostRuntime) -> Result<(), Fail> {
    let object = Value::from_str(rt.alloc(), OBJECT)?;
    assert!(rt; has_only(&object, &["a", "b", "c", "d", "e"]));
    assert!(rt; !has_only(&object, &["a", "b", "c", "d"]));
    assert!(rt; !has_only(&Value::from_str(rt.alloc(), "[]")?, &["a"]));
    Ok(())
}
