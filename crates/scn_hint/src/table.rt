//! What the fields of each kind of object hold, in the order of their names.
ghost use Rattle.std.specs.Prelude.{◌≡◌};
ghost use Rattle.scn_hint.specs.Table.{rules_of as rules_for, host_step_rules as host_step_rules_for};

use crate::field::{Kind, Rule};
use gic_host::HostForm;
use gic_host::scenarios::Form;

/// A field that has to be there and holds a number.
pub(crate) const NUMBER: Rule = Rule {
    kind: Kind::Number,
    needed: true,
};
/// One that has to hold true or false.
const FLAG: Rule = Rule {
    kind: Kind::Flag,
    needed: true,
};
/// One that has to hold true.
const YES: Rule = Rule {
    kind: Kind::Yes,
    needed: true,
};
/// One that has to hold a text.
const TEXT: Rule = Rule {
    kind: Kind::Text,
    needed: true,
};
/// One that has to hold two numbers.
const PAIR: Rule = Rule {
    kind: Kind::Pair,
    needed: true,
};
/// One that has to hold a list.
const LIST: Rule = Rule {
    kind: Kind::List,
    needed: true,
};
/// A field that holds a number where it is there.
const MAY_NUMBER: Rule = Rule {
    kind: Kind::Number,
    needed: false,
};
/// One that holds true or false where it is there.
const MAY_FLAG: Rule = Rule {
    kind: Kind::Flag,
    needed: false,
};
/// One that holds a text where it is there.
const MAY_TEXT: Rule = Rule {
    kind: Kind::Text,
    needed: false,
};
/// One that holds a list where it is there.
const MAY_LIST: Rule = Rule {
    kind: Kind::List,
    needed: false,
};

/// Of the fields of a scenario: `pes`, `lrs`, `guests`, `steps`.
pub(crate) const SCENARIO_RULES: [Rule; 4] = [MAY_NUMBER, MAY_NUMBER, LIST, LIST];

/// Of the fields of a guest: `vcpus`, `spis`, `espis`, `devices`, `lpis`, `ram`, `on`, `irqs`.
pub(crate) const GUEST_RULES: [Rule; 8] = [
    MAY_NUMBER, MAY_NUMBER, MAY_NUMBER, MAY_NUMBER, MAY_NUMBER, MAY_NUMBER, MAY_FLAG, MAY_LIST,
];

/// Of the fields of a preset of a private interrupt: `id`, `prio`, `edge`, `group`, `vcpu`.
pub(crate) const PRIVATE_RULES: [Rule; 5] = [NUMBER, MAY_NUMBER, MAY_FLAG, MAY_NUMBER, NUMBER];

/// Of the fields of a preset of a shared interrupt: `id`, `prio`, `edge`, `group`, `to`.
pub(crate) const SHARED_RULES: [Rule; 5] = [NUMBER, MAY_NUMBER, MAY_FLAG, MAY_NUMBER, MAY_NUMBER];

/// Of the fields of a step of a form, in the order of its row.
pub(crate) fn rules_of(form: Form) -> &'static [Rule]
    ensures { result.now ≡ rules_for form }
{
    match form {
        Form::AccessRegister => &[PAIR, TEXT, MAY_NUMBER],
        Form::AccessDistributor | Form::AccessIts | Form::AccessMemory => {
            &[PAIR, NUMBER, MAY_NUMBER, MAY_NUMBER]
        }
        Form::AccessRedistributor => &[PAIR, NUMBER, NUMBER, MAY_NUMBER, MAY_NUMBER],
        Form::SendMessage => &[PAIR, NUMBER],
        Form::MoveWire => &[PAIR, NUMBER, FLAG, MAY_NUMBER],
        Form::SendMsi => &[PAIR, PAIR],
        Form::EnterPe => &[NUMBER, PAIR],
        Form::ExitPe | Form::ShowPe => &[NUMBER, YES],
    }
}

/// Of the fields of links and their steps: `vcpus`, `lrs`, `links`, `steps`.
pub(crate) const HOST_RULES: [Rule; 4] = [NUMBER, NUMBER, LIST, LIST];

/// Of the fields of a link: `phys`, `vid`, `vcpu`, `prio`.
pub(crate) const LINK_RULES: [Rule; 4] = [NUMBER, NUMBER, NUMBER, NUMBER];

/// Of the fields of a step with links, of a form, in the order of its row.
pub(crate) fn host_step_rules(form: HostForm) -> &'static [Rule]
    ensures { result.now ≡ host_step_rules_for form }
{
    match form {
        HostForm::Physical => &[NUMBER, MAY_TEXT],
        HostForm::Access => &[TEXT, MAY_NUMBER],
        HostForm::EnterPe => &[NUMBER],
        HostForm::ExitPe | HostForm::ShowPe => &[YES],
    }
}
