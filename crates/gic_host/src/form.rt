//! The forms of steps.
ghost use Rattle.std.specs.Prelude.{◌≡◌, is_some, find, map};
ghost use Rattle.std.specs.List.{list_any};
ghost use Rattle.std.specs.Str.{bytes_eq};
ghost use Rattle.serde_json.specs.View.{view};
ghost use Rattle.serde_json.specs.Find.{get};
ghost use Rattle.gic_host.specs.Form.{row_of, form_of, forms};

use scn_read::Row;
use serde_json::Value;

pub(crate) const PHYS: &str = "phys";

pub(crate) const SET: &str = "set";

pub(crate) const ICC: &str = "icc";

pub(crate) const WRITE: &str = "write";

pub(crate) const ENTER: &str = "enter";

pub(crate) const EXIT: &str = "exit";

pub(crate) const LRS: &str = "lrs";

/// The forms of steps, each by what it does.
#[derive(Clone, Copy, Debug, PartialEq, Eq)]
pub enum HostForm {
    /// Something is done to a physical interrupt, or its state is shown: `phys`.
    Physical,
    /// The vCPU that is loaded accesses a register of its CPU interface: `icc`.
    Access,
    /// A vCPU is loaded: `enter`.
    EnterPe,
    /// The vCPU that is loaded leaves: `exit`.
    ExitPe,
    /// The list registers are shown: `lrs`.
    ShowPe,
}

/// All forms.
const FORMS: [HostForm; 5] = [
    HostForm::Physical,
    HostForm::Access,
    HostForm::EnterPe,
    HostForm::ExitPe,
    HostForm::ShowPe,
];

impl HostForm {
    /// The row of the form.
    pub fn row(self) -> Row
        ensures name { result.name.now ≡ (row_of self).name }
        ensures fields { map (λ field. field.now) result.fields.now ≡ (row_of self).fields }
    {
        let (name, fields): (&'static str, &'static [&'static str]) = match self {
            HostForm::Physical => (PHYS, &[PHYS, SET]),
            HostForm::Access => (ICC, &[ICC, WRITE]),
            HostForm::EnterPe => (ENTER, &[ENTER]),
            HostForm::ExitPe => (EXIT, &[EXIT]),
            HostForm::ShowPe => (LRS, &[LRS]),
        };
        Row { name, fields }
    }

    /// Whether a step has the field that names the form.
    fn is_named(self, value: &Value) -> bool
        ensures { result ≡ is_some (get (row_of self).name (view value.now)) }
    {
        value.get(self.row().name).is_some()
    }

    /// The form that a step names: the first, where it has the fields of two; then it has a field that its form has not.
    pub fn of(value: &Value) -> Option<HostForm>
        ensures { result ≡ form_of (view value.now) }
    {
        first_named(&FORMS, value)
    }
}

/// The first of these forms that a step names.
fn first_named(forms: &[HostForm], value: &Value) -> Option<HostForm>
    ensures { result ≡ find (λ form. is_some (get (row_of form).name (view value.now))) forms.now }
{
    forms.iter().copied().find(|form| form.is_named(value))
}
