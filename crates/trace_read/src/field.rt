//! The fields that say what happens in an event.
ghost use Rattle.std.specs.Prelude.{◌≡◌, find, is_some};
ghost use Rattle.serde_json.specs.View.{view};
ghost use Rattle.serde_json.specs.Find.{get};
ghost use Rattle.trace_read.specs.Act.{field_name};
ghost use Rattle.trace_read.specs.Reading.{field_of};

use serde_json::Value;

/// A field that says what happens.
#[derive(Clone, Copy, Debug, PartialEq, Eq)]
pub enum ActField {
    /// `begin`: a call begins.
    Begins,
    /// `end`: it ends.
    Ends,
    /// `reach`: an interrupt gets to an interface.
    Reaches,
    /// `take`: one at an interface becomes pending there.
    Takes,
    /// `leave`: one leaves an interface.
    Leaves,
    /// `raise`: one becomes pending.
    Raises,
    /// `up`: a wire goes up.
    GoesUp,
    /// `down`: a wire goes down.
    GoesDown,
    /// `cpu`: a register of the CPU interface is accessed.
    Accesses,
    /// `touch`: a record is read or changed.
    Touches,
    /// `enable`: EnableLPIs becomes 1.
    EnablesLpis,
    /// `read`: a place is read.
    ReadsPlace,
    /// `put`: a value is put.
    PutsPlace,
    /// `ctlr_begin`: GICD_CTLR is written.
    BeginsCtlr,
    /// `ctlr_end`: all have a copy of it.
    EndsCtlr,
    /// `its_begin`: the ITS is taken.
    BeginsIts,
    /// `its_end`: it is given back.
    EndsIts,
    /// `queue`: the command queue changes.
    MovesQueue,
}

/// All of them.
const FIELDS: [ActField; 18] = [
    ActField::Begins,
    ActField::Ends,
    ActField::Reaches,
    ActField::Takes,
    ActField::Leaves,
    ActField::Raises,
    ActField::GoesUp,
    ActField::GoesDown,
    ActField::Accesses,
    ActField::Touches,
    ActField::EnablesLpis,
    ActField::ReadsPlace,
    ActField::PutsPlace,
    ActField::BeginsCtlr,
    ActField::EndsCtlr,
    ActField::BeginsIts,
    ActField::EndsIts,
    ActField::MovesQueue,
];

impl ActField {
    /// The field's name.
    pub fn name(self) -> &'static str
        ensures { result.now ≡ field_name self }
    {
        match self {
            ActField::Begins => "begin",
            ActField::Ends => "end",
            ActField::Reaches => "reach",
            ActField::Takes => "take",
            ActField::Leaves => "leave",
            ActField::Raises => "raise",
            ActField::GoesUp => "up",
            ActField::GoesDown => "down",
            ActField::Accesses => "cpu",
            ActField::Touches => "touch",
            ActField::EnablesLpis => "enable",
            ActField::ReadsPlace => "read",
            ActField::PutsPlace => "put",
            ActField::BeginsCtlr => "ctlr_begin",
            ActField::EndsCtlr => "ctlr_end",
            ActField::BeginsIts => "its_begin",
            ActField::EndsIts => "its_end",
            ActField::MovesQueue => "queue",
        }
    }

    fn is_in(self, value: &Value) -> bool
        ensures { result ≡ is_some (get (field_name self) (view value.now)) }
    {
        value.get(self.name()).is_some()
    }

    /// The field that an event has: the first, where it has two; then it has one that may not be there.
    pub(crate) fn of(value: &Value) -> Option<ActField>
        ensures { result ≡ field_of (view value.now) }
    {
        first_in(&FIELDS, value)
    }
}

/// The first of these fields that an event has.
fn first_in(fields: &[ActField], value: &Value) -> Option<ActField>
    ensures { result ≡ find (λ field. is_some (get (field_name field) (view value.now))) fields.now }
{
    fields.iter().copied().find(|field| field.is_in(value))
}
