//! Where something is amiss outside of the steps.
ghost use Rattle.std.specs.Prelude.{◌≡◌, map, option_map, option_and_then, slice_get, All, IfSome, IfNone, Some, None};
ghost use Rattle.serde_json.specs.View.{view};
ghost use Rattle.scn_hint.specs.Field.{told};
ghost use Rattle.scn_hint.specs.Hint.{AllFit, IsFitGuest, asks_of, guest_in, step_number, shaped as shaped_in, scenario_trouble as scenario_trouble_in, guest_trouble as guest_trouble_in, preset_shape as preset_shape_in, preset_trouble as preset_trouble_in, what_of_preset, trouble_in_guest, trouble_among, trouble_at};

use crate::field::{Amiss, What, first_amiss, is_object, misfit};
use crate::limit::{guest_limit, preset_limit, scenario_limit, there_amiss};
use crate::table::{GUEST_RULES, NUMBER, PRIVATE_RULES, SCENARIO_RULES, SHARED_RULES};
use gic_host::scenarios::{
    GUEST_FIELDS, LIMIT, PRIVATE_COUNT, PRIVATE_FIELDS, SCENARIO_FIELDS, SHAPE, SHARED_FIELDS,
    UNKNOWN_ACTOR, elements_at, number_at,
};
use serde_json::Value;

const GUESTS: &str = "guests";

const IRQS: &str = "irqs";

const ID: &str = "id";

const VCPU: &str = "vcpu";

const TO: &str = "to";

/// Where a fault is.
#[derive(Clone, Copy, Debug, PartialEq, Eq)]
pub enum Place {
    /// The scenario, outside of its steps.
    Scenario,
    /// The guest of a number, from 0.
    Guest(usize),
    /// A preset, from 0, of a guest.
    Preset { guest: usize, preset: usize },
    /// The step of a number, from 1.
    Step(u32),
}

/// What a fault outside of the steps asks for.
#[derive(Clone, Copy, Debug, PartialEq, Eq)]
pub(crate) enum Asks {
    /// That each field is one of its table, and of its kind.
    Shape,
    /// That each number, and the length of each list, is in its range.
    Limit,
    /// That what a preset names is there.
    There,
}

impl Asks {
    /// What a fault outside of the steps asks for, by its code.
    pub(crate) fn of(code: u8) -> Option<Asks>
        ensures { result ≡ asks_of code }
    {
        match code {
            SHAPE => Some(Asks::Shape),
            LIMIT => Some(Asks::Limit),
            UNKNOWN_ACTOR => Some(Asks::There),
            _ => None,
        }
    }
}

/// What is amiss with a value: that it is no object, or a field of it.
fn shaped<'v>(value: &Value, amiss: Option<Amiss<'v>>) -> Option<Option<Amiss<'v>>>
    ensures { option_map (option_map told) result ≡ shaped_in (view value.now) (option_map told amiss.entry) }
{
    if is_object(value) {
        amiss.map(Some)
    } else {
        Some(None)
    }
}

/// What is amiss with the own fields of a scenario.
fn scenario_trouble(asks: Asks, value: &Value) -> Option<Option<Amiss<'_>>>
    ensures { option_map (option_map told) result ≡ scenario_trouble_in asks (view value.now) }
{
    match asks {
        Asks::Shape => shaped(value, first_amiss(value, &SCENARIO_FIELDS, &SCENARIO_RULES)),
        Asks::Limit => scenario_limit(value).map(Some),
        Asks::There => None,
    }
}

/// What is amiss with the own fields of a guest.
fn guest_trouble(asks: Asks, value: &Value) -> Option<Option<Amiss<'_>>>
    ensures { option_map (option_map told) result ≡ guest_trouble_in asks (view value.now) }
{
    match asks {
        Asks::Shape => shaped(value, first_amiss(value, &GUEST_FIELDS, &GUEST_RULES)),
        Asks::Limit => guest_limit(value).map(Some),
        Asks::There => None,
    }
}

/// What an unknown field is to a preset of a private interrupt, or of a shared one.
fn what_of(is_private: bool, amiss: Amiss<'_>) -> What
    ensures { result ≡ what_of_preset is_private amiss.entry.field.now amiss.entry.what }
{
    let other = if is_private { TO } else { VCPU };
    match amiss.what {
        What::Unknown if amiss.field == other => What::OfOthers,
        what => what,
    }
}

/// With which field of a preset something is amiss: first with its INTID, which says what else it has.
fn preset_shape(value: &Value) -> Option<Amiss<'_>>
    ensures { option_map told result ≡ preset_shape_in (view value.now) }
{
    let Some(id) = number_at(value, ID) else {
        let what = misfit(value, ID, NUMBER)?;
        return Some(Amiss { field: ID, what });
    };
    let is_private = id < u64::from(PRIVATE_COUNT);
    let amiss = if is_private {
        first_amiss(value, &PRIVATE_FIELDS, &PRIVATE_RULES)?
    } else {
        first_amiss(value, &SHARED_FIELDS, &SHARED_RULES)?
    };
    Some(Amiss {
        what: what_of(is_private, amiss),
        ..amiss
    })
}

/// What is amiss with a preset of a guest.
fn preset_trouble<'v>(asks: Asks, guest: &Value, value: &'v Value) -> Option<Option<Amiss<'v>>>
    ensures { option_map (option_map told) result ≡ preset_trouble_in asks (view guest.now) (view value.now) }
{
    match asks {
        Asks::Shape => shaped(value, preset_shape(value)),
        Asks::Limit => preset_limit(value).map(Some),
        Asks::There => there_amiss(guest, value).map(Some),
    }
}

/// A place, and what is amiss there: that it is no object, or a field of it.
type Found<'v> = (Place, Option<Amiss<'v>>);

/// The first of some presets of a guest with which something is amiss.
fn first_preset<'v>(
    asks: Asks,
    guest: &Value,
    values: &'v [Value],
) -> Option<(usize, Option<Amiss<'v>>)>
    ensures found { IfSome result (λ found. option_and_then (preset_trouble_in asks (view guest.now)) (slice_get (map view values.now) found.0) ≡ Some (option_map told found.1)) }
    ensures none { IfNone result (All (λ d. preset_trouble_in asks (view guest.now) d ≡ None) (map view values.now)) }
{
    for (preset, value) in values.iter().enumerate() {
        if let Some(found) = preset_trouble(asks, guest, value) {
            return Some((preset, found));
        }
    }
    None
}

/// What is amiss with the guest of this number, or with one of its presets.
fn guest_found(asks: Asks, guest: usize, value: &Value) -> Option<Found<'_>>
    ensures guest { IfSome result (λ found. guest_in found.0 ≡ Some guest) }
    ensures outside { IfSome result (λ found. step_number found.0 ≡ 0) }
    ensures amiss { IfSome result (λ found. trouble_in_guest asks found.0 (view value.now) ≡ Some (option_map told found.1)) }
    ensures none { IfNone result (IsFitGuest asks (view value.now)) }
{
    if let Some(found) = guest_trouble(asks, value) {
        return Some((Place::Guest(guest), found));
    }
    let (preset, found) = first_preset(asks, value, elements_at(value, IRQS))?;
    Some((Place::Preset { guest, preset }, found))
}

/// What is amiss with the first of some guests with which something is, or with a preset of it.
fn first_guest(asks: Asks, values: &[Value]) -> Option<Found<'_>>
    ensures outside { IfSome result (λ found. step_number found.0 ≡ 0) }
    ensures amiss { IfSome result (λ found. trouble_among asks found.0 (map view values.now) ≡ Some (option_map told found.1)) }
    ensures none { IfNone result (All (IsFitGuest asks) (map view values.now)) }
{
    for (guest, value) in values.iter().enumerate() {
        if let Some(found) = guest_found(asks, guest, value) {
            return Some(found);
        }
    }
    None
}

/// What is amiss outside of the steps.
pub(crate) fn outside(asks: Asks, value: &Value) -> Option<Found<'_>>
    ensures outside { IfSome result (λ found. step_number found.0 ≡ 0) }
    ensures amiss { IfSome result (λ found. trouble_at asks found.0 (view value.now) ≡ Some (option_map told found.1)) }
    ensures none { IfNone result (AllFit asks (view value.now)) }
{
    if let Some(found) = scenario_trouble(asks, value) {
        return Some((Place::Scenario, found));
    }
    first_guest(asks, elements_at(value, GUESTS))
}
