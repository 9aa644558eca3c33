//! Numbers that are outside of their ranges, and presets of what a guest does not have.
ghost use Rattle.std.specs.Prelude.{◌≡◌, ◌≢◌, map, option_map};
ghost use Rattle.serde_json.specs.View.{view};
ghost use Rattle.gic_host.specs.ScnRead.Preset.{is_private as is_private_in, written_of};
ghost use Rattle.scn_hint.specs.Field.{told};
ghost use Rattle.scn_hint.specs.Limit.{number_of, fits as fits_in, limit_amiss as limit_amiss_in, limits_amiss as limits_amiss_in, length_amiss as length_amiss_in, scenario_limit as scenario_limit_in, guest_limits, edge_amiss as edge_amiss_in, preset_limit as preset_limit_in, there_amiss as there_amiss_in};

use crate::field::{Amiss, What};
use gic_host::scenarios::{
    DEFAULT_TARGET, MAX_DEVICES, MAX_ESPIS, MAX_GROUP, MAX_GUESTS, MAX_LIST_REGISTERS, MAX_LPIS,
    MAX_PES, MAX_PRIORITY, MAX_SCENARIO_RAM, MAX_SPIS, MAX_STEPS, MAX_VCPUS, PRIVATE_COUNT,
    SGI_COUNT, counts, flag_or, list_at, number_at, number_or,
};
use serde_json::Value;

/// Of what the numbers of a range are multiples.
#[derive(Clone, Copy, Debug, PartialEq, Eq)]
pub enum Multiple {
    One,
    Eight,
    ThirtyTwo,
}

impl Multiple {
    pub(crate) fn number(self) -> u64
        ensures value { result ≡ number_of self }
        ensures some { result ≢ 0 }
    {
        match self {
            Multiple::One => 1,
            Multiple::Eight => 8,
            Multiple::ThirtyTwo => 32,
        }
    }
}

/// The range of a number, or of the length of a list.
#[derive(Clone, Copy, Debug, PartialEq, Eq)]
pub struct Limit {
    pub least: u64,
    pub most: u64,
    pub multiple: Multiple,
}

impl Limit {
    /// Whether a number is in the range.
    fn has(self, number: u64) -> bool
        ensures { result ≡ fits_in self number }
    {
        self.least <= number && number <= self.most && number % self.multiple.number() == 0
    }
}

/// The range from one number to another, of multiples of a third.
macro_rules! range {
    ($least:literal, $most:expr, $multiple:ident) => {
        Limit {
            least: $least,
            most: $most as u64,
            multiple: Multiple::$multiple,
        }
    };
}

/// The ranges of a scenario's own numbers.
const SCENARIO_LIMITS: [(&str, Limit); 2] = [
    ("pes", range!(1, MAX_PES, One)),
    ("lrs", range!(1, MAX_LIST_REGISTERS, One)),
];

/// The ranges of the lengths of a scenario's lists.
const GUEST_COUNT: Limit = range!(1, MAX_GUESTS, One);

const STEP_COUNT: Limit = range!(0, MAX_STEPS, One);

/// The ranges of a guest's numbers.
const GUEST_LIMITS: [(&str, Limit); 6] = [
    ("vcpus", range!(1, MAX_VCPUS, One)),
    ("spis", range!(0, MAX_SPIS, ThirtyTwo)),
    ("espis", range!(0, MAX_ESPIS, ThirtyTwo)),
    ("devices", range!(0, MAX_DEVICES, One)),
    ("lpis", range!(0, MAX_LPIS, One)),
    ("ram", range!(0, MAX_SCENARIO_RAM, Eight)),
];

/// The ranges of a preset's numbers.
const PRESET_LIMITS: [(&str, Limit); 2] = [
    ("prio", range!(0, MAX_PRIORITY, Eight)),
    ("group", range!(0, MAX_GROUP, One)),
];

/// A field whose number is outside of its range.
fn limit_amiss<'v>(value: &Value, name: &'v str, limit: Limit) -> Option<Amiss<'v>>
    ensures { option_map told result ≡ limit_amiss_in name.now limit (view value.now) }
{
    let found = number_at(value, name)?;
    (!limit.has(found)).then_some(Amiss {
        field: name,
        what: What::OutOfRange { found, limit },
    })
}

/// The first field of a table whose number is outside of its range.
fn limits_amiss<'v>(value: &Value, rows: &[(&'v str, Limit)]) -> Option<Amiss<'v>>
    ensures { option_map told result ≡ limits_amiss_in (map (λ row. (row.0.now, row.1)) rows.now) (view value.now) }
{
    let ((name, limit), rows) = rows.split_first()?;
    match limit_amiss(value, name, *limit) {
        Some(amiss) => Some(amiss),
        None => limits_amiss(value, rows),
    }
}

/// A field whose list is too short or too long.
fn length_amiss<'v>(value: &Value, name: &'v str, limit: Limit) -> Option<Amiss<'v>>
    ensures { option_map told result ≡ length_amiss_in name.now limit (view value.now) }
{
    let found = list_at(value, name)?.len() as u64;
    (!limit.has(found)).then_some(Amiss {
        field: name,
        what: What::WrongLength { found, limit },
    })
}

/// The first of a scenario's own fields whose number, or the length of whose list, is outside of its range.
pub(crate) fn scenario_limit(value: &Value) -> Option<Amiss<'static>>
    ensures { option_map told result ≡ scenario_limit_in (view value.now) }
{
    if let Some(amiss) = limits_amiss(value, &SCENARIO_LIMITS) {
        return Some(amiss);
    }
    if let Some(amiss) = length_amiss(value, "guests", GUEST_COUNT) {
        return Some(amiss);
    }
    length_amiss(value, "steps", STEP_COUNT)
}

/// The first of a guest's own fields whose number is outside of its range.
pub(crate) fn guest_limit(value: &Value) -> Option<Amiss<'static>>
    ensures { option_map told result ≡ limits_amiss_in guest_limits (view value.now) }
{
    limits_amiss(value, &GUEST_LIMITS)
}

/// The field of an SGI's preset that says that it is not edge-triggered.
fn edge_amiss(value: &Value) -> Option<Amiss<'static>>
    ensures { option_map told result ≡ edge_amiss_in (view value.now) }
{
    let is_edge = flag_or(value, "edge", true).unwrap_or(false);
    let id = number_at(value, "id").unwrap_or(0);
    let is_fit = is_edge || id >= u64::from(SGI_COUNT);
    (!is_fit).then_some(Amiss {
        field: "edge",
        what: What::NotEdge,
    })
}

/// The first of a preset's fields whose number is outside of its range.
pub(crate) fn preset_limit(value: &Value) -> Option<Amiss<'static>>
    ensures { option_map told result ≡ preset_limit_in (view value.now) }
{
    match limits_amiss(value, &PRESET_LIMITS) {
        Some(amiss) => Some(amiss),
        None => edge_amiss(value),
    }
}

/// The vCPU that a preset names: of a private interrupt, or the target of a shared one.
fn named_vcpu(value: &Value, is_private: bool) -> u64
    requires { is_private ≡ is_private_in (view value.now) }
    ensures { result ≡ (written_of (view value.now)).vcpu }
{
    let found = if is_private {
        number_at(value, "vcpu")
    } else {
        number_or(value, "to", u64::from(DEFAULT_TARGET))
    };
    found.unwrap_or(0)
}

/// The field of a preset that names a vCPU, or an interrupt, that its guest does not have.
pub(crate) fn there_amiss(guest: &Value, value: &Value) -> Option<Amiss<'static>>
    ensures { option_map told result ≡ there_amiss_in (view guest.now) (view value.now) }
{
    let counts = counts(guest);
    let id = number_at(value, "id").unwrap_or(0);
    let is_private = id < u64::from(PRIVATE_COUNT);
    let field = if named_vcpu(value, is_private) >= u64::from(counts.vcpus) {
        if is_private { "vcpu" } else { "to" }
    } else if is_private || counts.has_spi(id) {
        return None;
    } else {
        "id"
    };
    Some(Amiss {
        field,
        what: What::NotThere,
    })
}
