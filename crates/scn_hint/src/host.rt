//! Where a fault of links and their steps is, and what it means.
ghost use Rattle.std.specs.Prelude.{◌≡◌, ◌+◌, ◌^◌, ◌<◌, length, map, option_map};
ghost use Rattle.serde_json.specs.View.{view};
ghost use Rattle.gic_host.specs.Form.{form_of};
ghost use Rattle.scn_hint.specs.Field.{told};
ghost use Rattle.scn_hint.specs.Host.{first_link as first_link_in, shape_told as shape_told_in, told_of_form, host_told};

use crate::field::{Amiss, first_amiss};
use crate::held::Held;
use crate::hint::code_name;
use crate::step::step_at;
use crate::table::{HOST_RULES, LINK_RULES, host_step_rules};
use crate::text::OfShape;
use gic_host::scenarios::{Fault, SHAPE, elements_at};
use gic_host::{HOST_FIELDS, HostForm, LINK_FIELDS};
use serde_json::Value;
use std::fmt;

const LINKS: &str = "links";

/// The step of a fault outside of the steps.
const NO_STEP: u32 = 0;

/// Where a fault of links and their steps is.
#[derive(Clone, Copy, Debug, PartialEq, Eq)]
pub enum HostPlace {
    /// Outside of the steps.
    Outside,
    /// The link of a number, from 0.
    Link(usize),
    /// The step of a number, from 1.
    Step(u32),
}

/// A fault of links and their steps, where it is, and the field with which something is amiss there, where a table of fields shows it.
#[derive(Clone, Copy, Debug)]
pub struct HostHint<'v> {
    pub fault: Fault,
    pub place: HostPlace,
    pub amiss: Option<Amiss<'v>>,
    /// What that field holds.
    held: Held<'v>,
}

/// A place, and with which field something is amiss there.
type Found<'v> = (HostPlace, Option<Amiss<'v>>);

/// The first of some links, the first of which has this number, with a field with which something is amiss.
fn first_link(number: usize, links: &[Value]) -> Found<'_>
    requires { number + length links.now < 2 ^ 64 }
    ensures { (result.0, option_map told result.1) ≡ first_link_in number (map view links.now) }
{
    let Some((link, links)) = links.split_first() else {
        return (HostPlace::Outside, None);
    };
    match first_amiss(link, &LINK_FIELDS, &LINK_RULES) {
        Some(amiss) => (HostPlace::Link(number), Some(amiss)),
        None => first_link(number + 1, links),
    }
}

/// With which field of a step something is amiss.
fn step_amiss(step: &Value) -> Option<Amiss<'_>>
    ensures { option_map told result ≡ told_of_form (form_of (view step.now)) (view step.now) }
{
    let form = HostForm::of(step)?;
    first_amiss(step, form.row().fields, host_step_rules(form))
}

/// Where a fault of shape is, and with which field something is amiss there.
fn shape_told(value: &Value, number: u32) -> Found<'_>
    ensures { (result.0, option_map told result.1) ≡ shape_told_in number (view value.now) }
{
    if number != NO_STEP {
        let step = step_at(value, number);
        return (HostPlace::Step(number), step.and_then(step_amiss));
    }
    match first_amiss(value, &HOST_FIELDS, &HOST_RULES) {
        Some(amiss) => (HostPlace::Outside, Some(amiss)),
        None => first_link(0, elements_at(value, LINKS)),
    }
}

/// Where a fault is, and with which field something is amiss there.
fn found(value: &Value, fault: Fault) -> Found<'_>
    ensures { (result.0, option_map told result.1) ≡ host_told fault (view value.now) }
{
    match (fault.code, fault.step) {
        (SHAPE, number) => shape_told(value, number),
        (_, NO_STEP) => (HostPlace::Outside, None),
        (_, number) => (HostPlace::Step(number), None),
    }
}

/// What is known of a fault of what `host` reads: where it is, and of a fault of shape the field with which something is amiss there, where
/// the tables of fields show one.
pub fn host_hint_of(value: &Value, fault: Fault) -> HostHint<'_>
    ensures fault { result.fault ≡ fault }
    ensures told { (result.place, option_map told result.amiss) ≡ host_told fault (view value.now) }
{
    let (place, amiss) = found(value, fault);
    let held = match amiss {
        Some(Amiss { field, .. }) => held_at(value, place, field),
        None => Held::Other,
    };
    HostHint {
        fault,
        place,
        amiss,
        held,
    }
}

/// What the field of this name holds at a place.
fn held_at<'v>(value: &'v Value, place: HostPlace, field: &str) -> Held<'v> {
    let object = match place {
        HostPlace::Outside => Some(value),
        HostPlace::Link(number) => elements_at(value, LINKS).get(number),
        HostPlace::Step(number) => step_at(value, number),
    };
    match object {
        Some(object) => Held::of(object, field),
        None => Held::Other,
    }
}

/// The place.
impl fmt::Display for HostPlace {
    fn fmt<W: fmt::Write>(&self, f: &mut fmt::Formatter<W>) -> fmt::Result {
        match self {
            HostPlace::Outside => f.write_str("outside of the steps"),
            HostPlace::Link(number) => write!(f, "link {number}"),
            HostPlace::Step(number) => write!(f, "step {number}"),
        }
    }
}

/// The fault in one line.
impl fmt::Display for HostHint<'_> {
    fn fmt<W: fmt::Write>(&self, f: &mut fmt::Formatter<W>) -> fmt::Result {
        write!(f, "{}: {}", self.place, code_name(self.fault.code))?;
        match &self.amiss {
            Some(amiss) => write!(f, ": {}", OfShape(amiss, self.held)),
            None => Ok(()),
        }
    }
}
