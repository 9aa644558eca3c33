//! The forms of steps.
ghost use Rattle.std.specs.Prelude.{◌≡◌, is_some, find, map};
ghost use Rattle.std.specs.List.{list_any};
ghost use Rattle.std.specs.Str.{bytes_eq};
ghost use Rattle.serde_json.specs.View.{view};
ghost use Rattle.serde_json.specs.Find.{get};
ghost use Rattle.scn_read.specs.Form.{row_of, form_of, forms};

use serde_json::Value;

pub(crate) const ICC: &str = "icc";

pub(crate) const GICD: &str = "gicd";

pub(crate) const GICR: &str = "gicr";

pub(crate) const GITS: &str = "gits";

pub(crate) const RAM: &str = "ram";

pub(crate) const MESSAGE: &str = "message";

pub(crate) const WIRE: &str = "wire";

pub(crate) const MSI: &str = "msi";

pub(crate) const ENTER: &str = "enter";

pub(crate) const EXIT: &str = "exit";

pub(crate) const LRS: &str = "lrs";

pub(crate) const VCPU: &str = "vcpu";

pub(crate) const WRITE: &str = "write";

pub(crate) const SIZE: &str = "size";

pub(crate) const OF: &str = "of";

pub(crate) const DEV: &str = "dev";

pub(crate) const UP: &str = "up";

pub(crate) const PE: &str = "pe";

/// The forms of steps, each by what it does.
#[derive(Clone, Copy, Debug, PartialEq, Eq)]
pub enum Form {
    /// A vCPU accesses a register of its CPU interface: `icc`.
    AccessRegister,
    /// A vCPU accesses the distributor: `gicd`.
    AccessDistributor,
    /// A vCPU accesses a redistributor: `gicr`.
    AccessRedistributor,
    /// A vCPU accesses the ITS: `gits`.
    AccessIts,
    /// A vCPU accesses memory: `ram`.
    AccessMemory,
    /// A device sends a message to an SPI: `message`.
    SendMessage,
    /// A device moves a wire: `wire`.
    MoveWire,
    /// A device sends an event to the ITS: `msi`.
    SendMsi,
    /// A vCPU enters a PE: `enter`.
    EnterPe,
    /// The vCPU of a PE leaves it: `exit`.
    ExitPe,
    /// The list registers of a PE are shown: `lrs`.
    ShowPe,
}

/// All forms.
const FORMS: [Form; 11] = [
    Form::AccessRegister,
    Form::AccessDistributor,
    Form::AccessRedistributor,
    Form::AccessIts,
    Form::AccessMemory,
    Form::SendMessage,
    Form::MoveWire,
    Form::SendMsi,
    Form::EnterPe,
    Form::ExitPe,
    Form::ShowPe,
];

/// One row of the table of forms.
#[derive(Clone, Copy, Debug)]
pub struct Row {
    /// The field that names the form.
    pub name: &'static str,
    /// All fields that a step of the form may have.
    pub fields: &'static [&'static str],
}

impl Form {
    /// The row of the form.
    pub fn row(self) -> Row
        ensures name { result.name.now ≡ (row_of self).name }
        ensures fields { map (λ field. field.now) result.fields.now ≡ (row_of self).fields }
    {
        let (name, fields): (&'static str, &'static [&'static str]) = match self {
            Form::AccessRegister => (ICC, &[VCPU, ICC, WRITE]),
            Form::AccessDistributor => (GICD, &[VCPU, GICD, SIZE, WRITE]),
            Form::AccessRedistributor => (GICR, &[VCPU, GICR, OF, SIZE, WRITE]),
            Form::AccessIts => (GITS, &[VCPU, GITS, SIZE, WRITE]),
            Form::AccessMemory => (RAM, &[VCPU, RAM, SIZE, WRITE]),
            Form::SendMessage => (MESSAGE, &[DEV, MESSAGE]),
            Form::MoveWire => (WIRE, &[DEV, WIRE, UP, VCPU]),
            Form::SendMsi => (MSI, &[DEV, MSI]),
            Form::EnterPe => (ENTER, &[PE, ENTER]),
            Form::ExitPe => (EXIT, &[PE, EXIT]),
            Form::ShowPe => (LRS, &[PE, LRS]),
        };
        Row { name, fields }
    }

    /// Whether a step has the field that names the form.
    fn is_named(self, value: &Value) -> bool
        ensures { result ≡ is_some (get (row_of self).name (view value.now)) }
    {
        value.get(self.row().name).is_some()
    }

    /// Whether the field that names the form has this name.
    fn is_called(self, name: &str) -> bool
        ensures { result ≡ bytes_eq name.now (row_of self).name }
    {
        name == self.row().name
    }

    /// Whether the field of this name names a form.
    pub fn is_name(name: &str) -> bool
        ensures { result ≡ list_any (λ form. bytes_eq name.now (row_of form).name) forms }
    {
        FORMS.iter().any(|form| form.is_called(name))
    }

    /// The form that a step names: the first, where it has the fields of two; then it has a field that its form has not.
    pub fn of(value: &Value) -> Option<Form>
        ensures { result ≡ form_of (view value.now) }
    {
        first_named(&FORMS, value)
    }
}

/// The first of these forms that a step names.
fn first_named(forms: &[Form], value: &Value) -> Option<Form>
    ensures { result ≡ find (λ form. is_some (get (row_of form).name (view value.now))) forms.now }
{
    forms.iter().copied().find(|form| form.is_named(value))
}
