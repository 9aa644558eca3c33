//! The names of interrupts, places and kinds of registers.
ghost use Rattle.std.specs.Prelude.{◌≡◌, ◌<◌, ◌≤◌, ◌^◌, IfSome, find, option_map};
ghost use Rattle.std.specs.Str.{bytes_eq};
ghost use Rattle.scn_read.specs.Narrow.{narrowed as narrowed_to};
ghost use Rattle.trace_read.specs.Name.{digit as digit_of, digits as digits_after, plain_number as plain_number_in, halves as halves_of, owner_named as owner_named_in, private_named, shared_named as shared_named_in, key_named as key_named_in, place_named as place_named_in, numbered_named, kind_name as name_of_kind, kind_named as kind_named_in};

use crate::place::Place;
use floor_calls::{FIRST_LPI, Key, Kind};

/// How many digits there are.
const BASE: u32 = 10;
/// What stands between the two parts of a name.
const BETWEEN: char = ':';
/// What stands before the number of a vCPU.
const OWNER: char = 'v';

/// A number in 32 bits: the greatest one stands for all that are greater, since none of them names anything that is there.
pub(crate) fn narrowed(number: u64) -> u32
    ensures { result ≡ narrowed_to number }
{
    number.min(u64::from(u32::MAX)) as u32
}

/// The value of a decimal digit.
fn digit(byte: u8) -> Option<u32>
    ensures value { result ≡ digit_of byte }
    ensures small { IfSome result (λ digit. digit < 10) }
{
    char::from(byte).to_digit(BASE)
}

/// The number that digits spell, where the greatest one of 32 bits stands for all that are greater.
fn digits(bytes: &[u8]) -> Option<u32>
    ensures { result ≡ option_map narrowed_to (digits_after 0 bytes.now) }
{
    let mut number: u32 = 0;
    for byte in bytes {
        number = narrowed(u64::from(BASE) * u64::from(number) + u64::from(digit(*byte)?));
    }
    Some(number)
}

/// The number that a text writes, in digits without a zero before another one; the greatest one of 32 bits stands for all
/// that are greater. None for every other text.
fn plain_number(text: &str) -> Option<u32>
    ensures { result ≡ plain_number_in text.now }
{
    match text.as_bytes() {
        [] => None,
        [b'0', _, ..] => None,
        bytes => digits(bytes),
    }
}

/// What stands before the first colon of a text, and after it. None where there is no colon.
fn halves(text: &str) -> Option<(&str, &str)>
    ensures { option_map (λ pair. (pair.0.now, pair.1.now)) result ≡ halves_of text.now }
{
    text.split_once(BETWEEN)
}

/// The number of the vCPU that is written behind a v.
fn owner_named(text: &str) -> Option<u32>
    ensures { result ≡ owner_named_in text.now }
{
    plain_number(text.strip_prefix(OWNER)?)
}

/// The private interrupt whose vCPU and INTID are written so.
fn private(owner: &str, id: &str) -> Option<Key>
    ensures { result ≡ private_named (owner.now, id.now) }
{
    let vcpu = owner_named(owner)?;
    let id = plain_number(id)?;
    Some(Key::Private { vcpu, id })
}

/// The shared interrupt whose INTID is written so.
fn shared(text: &str) -> Option<Key>
    ensures { result ≡ shared_named_in text.now }
{
    let id = plain_number(text)?;
    Some(if id < FIRST_LPI {
        Key::Spi(id)
    } else {
        Key::Lpi(id)
    })
}

/// The interrupt of a name: `v0:16` for one of a vCPU's own, `40` or `8192` for a shared one. Whether the guest has it is not asked. None
/// where the text is no such name.
pub(crate) fn key_named(text: &str) -> Option<Key>
    ensures { result ≡ key_named_in text.now }
{
    match halves(text) {
        Some((owner, id)) => private(owner, id),
        None => shared(text),
    }
}

/// The place whose name and number are written so.
fn numbered(name: &str, number: &str) -> Option<Place>
    ensures { result ≡ numbered_named (name.now, number.now) }
{
    Place::numbered(name, plain_number(number)?)
}

/// The place of a name, as `cwriter` or `ram:512`. Whether the guest has it is not asked. None where the text is no such name.
pub(crate) fn place_named(text: &str) -> Option<Place>
    ensures { result ≡ place_named_in text.now }
{
    match halves(text) {
        Some((name, number)) => numbered(name, number),
        None => Place::single(text),
    }
}

/// All kinds of registers that have a part for each interrupt.
const KINDS: [Kind; 10] = [
    Kind::Group,
    Kind::SetEnable,
    Kind::ClearEnable,
    Kind::SetPending,
    Kind::ClearPending,
    Kind::SetActive,
    Kind::ClearActive,
    Kind::Priority,
    Kind::Config,
    Kind::Routing,
];

/// What a kind is called.
fn kind_name(kind: Kind) -> &'static str
    ensures { result.now ≡ name_of_kind kind }
{
    match kind {
        Kind::Group => "Group",
        Kind::SetEnable => "SetEnable",
        Kind::ClearEnable => "ClearEnable",
        Kind::SetPending => "SetPending",
        Kind::ClearPending => "ClearPending",
        Kind::SetActive => "SetActive",
        Kind::ClearActive => "ClearActive",
        Kind::Priority => "Priority",
        Kind::Config => "Config",
        Kind::Routing => "Routing",
    }
}

fn is_kind_called(kind: Kind, name: &str) -> bool
    ensures { result ≡ bytes_eq name.now (name_of_kind kind) }
{
    name == kind_name(kind)
}

/// The first of these kinds that is called so.
fn first_kind(kinds: &[Kind], name: &str) -> Option<Kind>
    ensures { result ≡ find (λ kind. bytes_eq name.now (name_of_kind kind)) kinds.now }
{
    kinds
        .iter()
        .copied()
        .find(|kind| is_kind_called(*kind, name))
}

/// The kind of a name. None where no kind is called so.
pub(crate) fn kind_named(text: &str) -> Option<Kind>
    ensures { result ≡ kind_named_in text.now }
{
    first_kind(&KINDS, text)
}
