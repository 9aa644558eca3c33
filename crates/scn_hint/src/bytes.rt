//! Why bytes are no JSON, where they show it.

use std::fmt;

/// Why bytes are no JSON.
#[derive(Clone, Copy, Debug, PartialEq, Eq)]
pub enum Cause {
    /// They begin with the byte order mark of UTF-8.
    Mark,
    /// They are UTF-16.
    Utf16,
    /// They are no UTF-8.
    NotUtf8,
    /// Lists and objects stand in one another more than 127 deep.
    TooDeep,
    /// An escape is one half of a pair alone.
    HalfPair,
}

const MARK: &[u8] = b"\xef\xbb\xbf";

const LITTLE_ENDIAN_MARK: &[u8] = b"\xff\xfe";

const BIG_ENDIAN_MARK: &[u8] = b"\xfe\xff";

/// How deep lists and objects may stand in one another.
const MAX_DEPTH: u32 = 127;

/// Where a reader of JSON is.
#[derive(Clone, Copy)]
enum Within {
    Values,
    Text,
    Escape,
}

impl Within {
    /// Where it is after a byte.
    fn after(self, byte: u8) -> Within {
        match (self, byte) {
            (Within::Values, b'"') => Within::Text,
            (Within::Text, b'"') => Within::Values,
            (Within::Text, b'\\') => Within::Escape,
            (Within::Escape, _) => Within::Text,
            (within, _) => within,
        }
    }
}

/// Whether lists and objects stand in one another too deep.
fn is_too_deep(bytes: &[u8]) -> bool {
    let mut within = Within::Values;
    let mut depth = 0u32;
    for byte in bytes {
        match (within, *byte) {
            (Within::Values, b'[' | b'{') => depth = depth.saturating_add(1),
            (Within::Values, b']' | b'}') => depth = depth.saturating_sub(1),
            _ => {}
        }
        if depth > MAX_DEPTH {
            return true;
        }
        within = within.after(*byte);
    }
    false
}

/// What an escape is of a pair of escapes that make one character.
#[derive(Clone, Copy, PartialEq, Eq)]
enum Half {
    First,
    Second,
    Neither,
}

/// What the escape that bytes begin with is of a pair.
fn half_at(bytes: &[u8]) -> Half {
    match bytes {
        [
            b'\\',
            b'u',
            b'd' | b'D',
            b'8' | b'9' | b'a' | b'b' | b'A' | b'B',
            ..
        ] => Half::First,
        [b'\\', b'u', b'd' | b'D', b'c'..=b'f' | b'C'..=b'F', ..] => Half::Second,
        _ => Half::Neither,
    }
}

/// What the escape at an index is of a pair.
fn half_from(bytes: &[u8], index: usize) -> Half {
    half_at(bytes.get(index..).unwrap_or(&[]))
}

/// The bytes of an escape such as `\ud83d`.
const ESCAPE_BYTES: usize = 6;

/// Whether an escape is one half of a pair alone.
fn has_half_pair(bytes: &[u8]) -> bool {
    for index in 0..bytes.len() {
        let is_alone = match half_from(bytes, index) {
            Half::First => half_from(bytes, index.saturating_add(ESCAPE_BYTES)) != Half::Second,
            Half::Second if index < ESCAPE_BYTES => true,
            Half::Second => half_from(bytes, index - ESCAPE_BYTES) != Half::First,
            Half::Neither => false,
        };
        if is_alone {
            return true;
        }
    }
    false
}

impl Cause {
    /// Why bytes that are no JSON are none, where they show it.
    pub fn of(bytes: &[u8]) -> Option<Cause> {
        if bytes.starts_with(MARK) {
            return Some(Cause::Mark);
        }
        if bytes.starts_with(LITTLE_ENDIAN_MARK) || bytes.starts_with(BIG_ENDIAN_MARK) {
            return Some(Cause::Utf16);
        }
        if matches!(bytes, [0, _, ..] | [_, 0, ..]) {
            return Some(Cause::Utf16);
        }
        if str::from_utf8(bytes).is_err() {
            return Some(Cause::NotUtf8);
        }
        if is_too_deep(bytes) {
            return Some(Cause::TooDeep);
        }
        has_half_pair(bytes).then_some(Cause::HalfPair)
    }
}

impl fmt::Display for Cause {
    fn fmt<W: fmt::Write>(&self, f: &mut fmt::Formatter<W>) -> fmt::Result {
        f.write_str(match self {
            Cause::Mark => "it begins with a byte order mark",
            Cause::Utf16 => "it is UTF-16; UTF-8 is read",
            Cause::NotUtf8 => "it is no UTF-8",
            Cause::TooDeep => "lists and objects stand in one another more than 127 deep",
            Cause::HalfPair => "an escape such as \\ud83d is one half of a pair alone",
        })
    }
}
