//! What is amiss with the fields of an object.
ghost use Rattle.std.specs.Prelude.{◌≡◌, map, option_map};
ghost use Rattle.serde_json.specs.View.{view};
ghost use Rattle.scn_hint.specs.Field.{holds as holds_of, misfit_of, misfit_in, amiss_in, told, is_object as is_object_of};

use crate::limit::Limit;
use gic_host::scenarios::{Form, flag_at, list_at, number_at, other_field, pair_at, text_at};
use serde_json::Value;

/// What a field holds.
#[derive(Clone, Copy, Debug, PartialEq, Eq)]
pub enum Kind {
    /// An unsigned number.
    Number,
    /// True or false.
    Flag,
    /// True.
    Yes,
    /// A text.
    Text,
    /// A list of two numbers.
    Pair,
    /// A list.
    List,
}

/// What an object's table says of a field.
#[derive(Clone, Copy, Debug)]
pub struct Rule {
    pub kind: Kind,
    /// Whether the field has to be there.
    pub needed: bool,
}

/// What is amiss with a field.
#[derive(Clone, Copy, Debug, PartialEq, Eq)]
pub enum What {
    /// The object's table has no such field.
    Unknown,
    /// A preset has it only where its interrupt is of the other kind, private or shared.
    OfOthers,
    /// It names a form, and the step is of this one.
    SecondForm(Form),
    /// It says who acts, and a step of this form is done by somebody else.
    OtherActor(Form),
    /// It says who acts, and the step does not say what.
    NoForm,
    /// The step does not say who acts.
    NoActor,
    /// It has to be there, and to hold this.
    Missing(Kind),
    /// It holds something else than this.
    WrongKind(Kind),
    /// It holds this number, which is outside of the range.
    OutOfRange { found: u64, limit: Limit },
    /// It holds a list of this length, which is outside of the range.
    WrongLength { found: u64, limit: Limit },
    /// An SGI is edge-triggered.
    NotEdge,
    /// It is a size of this many bytes, and no access has it.
    BadSize { found: u64 },
    /// Its value does not fit an access of this many bytes.
    TooLong { size: u64 },
    /// One of its numbers is 2^32 or more.
    TooLarge,
    /// No register has this name.
    NoRegister,
    /// The register cannot be read.
    NotReadable,
    /// The register cannot be written.
    NotWritable,
    /// What it names is not there.
    NotThere,
    /// The vCPU that it names is on no PE.
    NotLoaded,
    /// No vCPU is on the PE that it names.
    NoVcpu,
    /// The vCPU that it names is on a PE, or the PE has a vCPU.
    Busy,
    /// A run on threads places the vCPUs itself.
    NotOnThreads,
    /// The wire has that level already, or another device moves it.
    SameLevel,
    /// It lies outside of the frame or of the memory, or is not aligned there.
    Outside,
}

/// A field, and what is amiss with it.
#[derive(Clone, Copy, Debug)]
pub struct Amiss<'v> {
    pub field: &'v str,
    pub what: What,
}

impl Kind {
    /// Whether the field of this name is there and holds this.
    fn is_held(self, value: &Value, name: &str) -> bool
        ensures { result ≡ holds_of self name.now (view value.now) }
    {
        match self {
            Kind::Number => number_at(value, name).is_some(),
            Kind::Flag => flag_at(value, name).is_some(),
            Kind::Yes => flag_at(value, name) == Some(true),
            Kind::Text => text_at(value, name).is_some(),
            Kind::Pair => pair_at(value, name).is_some(),
            Kind::List => list_at(value, name).is_some(),
        }
    }
}

/// Whether a value is an object.
pub(crate) fn is_object(value: &Value) -> bool
    ensures { result ≡ is_object_of (view value.now) }
{
    value.as_object().is_some()
}

/// What is amiss with the field of this name, if anything is.
pub(crate) fn misfit(value: &Value, name: &str, rule: Rule) -> Option<What>
    ensures { result ≡ misfit_of name.now rule (view value.now) }
{
    if value.get(name).is_none() {
        return rule.needed.then_some(What::Missing(rule.kind));
    }
    (!rule.kind.is_held(value, name)).then_some(What::WrongKind(rule.kind))
}

/// The first of the fields of a table with which something is amiss.
fn first_misfit<'v>(value: &Value, names: &[&'v str], rules: &[Rule]) -> Option<Amiss<'v>>
    ensures { option_map told result ≡ misfit_in (map (λ name. name.now) names.now) rules.now (view value.now) }
{
    let (name, names) = names.split_first()?;
    let (rule, rules) = rules.split_first()?;
    match misfit(value, name, *rule) {
        Some(what) => Some(Amiss { field: name, what }),
        None => first_misfit(value, names, rules),
    }
}

/// The first field of a value with which something is amiss, by a table of names with a rule each: one that is not in the table,
/// or else the first of the table that is missing or of another kind.
pub fn first_amiss<'v>(value: &'v Value, names: &[&'v str], rules: &[Rule]) -> Option<Amiss<'v>>
    ensures { option_map told result ≡ amiss_in (map (λ name. name.now) names.now) rules.now (view value.now) }
{
    match other_field(value, names) {
        Some(field) => Some(Amiss {
            field,
            what: What::Unknown,
        }),
        None => first_misfit(value, names, rules),
    }
}
