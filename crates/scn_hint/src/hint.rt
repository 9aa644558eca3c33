//! Where a fault is, and what it means.
ghost use Rattle.std.specs.Prelude.{◌≡◌, ◌≢◌, ◌⊎◌, option_map, Err, Some};
ghost use Rattle.serde_json.specs.View.{view};
ghost use Rattle.gic_host.specs.ScnRead.ScnBase.declared.step.Mode.{Mode};
ghost use Rattle.gic_host.specs.ScnRead.Reading.{reading};
ghost use Rattle.scn_hint.specs.Field.{told};
ghost use Rattle.scn_hint.specs.Hint.{AllFit, asks_of, name_of, step_number, told_of_step, trouble_at};
ghost use Rattle.scn_hint.specs.Law.{IsNamed};
ghost use Rattle.scn_hint.specs.declared.place.Asks.{Asks as AsksOf};
ghost use Rattle.scn_hint.specs.declared.place.Place.TheVariants.{Step as StepAt};

use crate::field::Amiss;
use crate::held::{Held, Room};
use crate::place::{Asks, Place, outside};
use crate::step::within;
use gic_host::LINK_TWICE;
use gic_host::scenarios::{
    ADDRESS, Fault, LIMIT, NOT_LOADED, PE_BUSY, PE_STEP, SHAPE, UNKNOWN_ACTOR, UNKNOWN_REGISTER,
    WIRE_LEVEL,
};
use serde_json::Value;

/// The step of a fault outside of the steps.
const NO_STEP: u32 = 0;

/// A fault, where it is, and the field with which something is amiss there: none only where that is no object.
#[derive(Clone, Copy, Debug)]
pub struct Hint<'v> {
    pub fault: Fault,
    pub place: Place,
    pub amiss: Option<Amiss<'v>>,
    /// What that field holds.
    pub(crate) held: Held<'v>,
    /// How much there is of what it can name.
    pub(crate) room: Room,
}

/// What a code, 1 to 9 or 11, is called: `Shape`, `Limit` and so on; `Unknown` where it is none.
pub fn code_name(code: u8) -> &'static str
    ensures { result.now ≡ name_of code }
{
    match code {
        SHAPE => "Shape",
        LIMIT => "Limit",
        UNKNOWN_REGISTER => "UnknownRegister",
        UNKNOWN_ACTOR => "UnknownActor",
        NOT_LOADED => "NotLoaded",
        PE_BUSY => "PeBusy",
        PE_STEP => "PeStep",
        WIRE_LEVEL => "WireLevel",
        ADDRESS => "Address",
        LINK_TWICE => "LinkTwice",
        _ => "Unknown",
    }
}

/// Where a fault outside of the steps is, and what is amiss there.
fn found_outside(value: &Value, code: u8) -> (Place, Option<Amiss<'_>>)
    ensures step { step_number result.0 ≡ 0 }
    ensures amiss { (asks : AsksOf) → asks_of code ≡ Some asks → (trouble_at asks result.0 (view value.now) ≡ Some (option_map told result.1)) ⊎ AllFit asks (view value.now) }
{
    let Some(asks) = Asks::of(code) else {
        return (Place::Scenario, None);
    };
    outside(asks, value).unwrap_or((Place::Scenario, None))
}

/// Where a fault is, and with which field something is amiss there.
fn found(value: &Value, fault: Fault) -> (Place, Option<Amiss<'_>>)
    ensures step { step_number result.0 ≡ fault.step }
    ensures outside { fault.step ≡ 0 → (asks : AsksOf) → asks_of fault.code ≡ Some asks → (trouble_at asks result.0 (view value.now) ≡ Some (option_map told result.1)) ⊎ AllFit asks (view value.now) }
    ensures within { fault.step ≢ 0 → (result.0 ≡ StepAt fault.step) × (option_map told result.1 ≡ told_of_step fault.code fault.step (view value.now)) }
    ensures named { (mode : Mode) → reading mode (view value.now) ≡ Err fault → IsNamed result.0 (option_map told result.1) fault (view value.now) }
{
    if fault.step == NO_STEP {
        found_outside(value, fault.code)
    } else {
        (
            Place::Step(fault.step),
            within(value, fault.code, fault.step),
        )
    }
}

/// What is known of a fault of a scenario's value: where it is, and the field with which something is amiss there. Of a fault that the
/// reader finds there is always one, unless it is a fault of shape of what is no object.
pub fn hint_of(value: &Value, fault: Fault) -> Hint<'_>
    ensures fault { result.fault ≡ fault }
    ensures step { step_number result.place ≡ fault.step }
    ensures outside { fault.step ≡ 0 → (asks : AsksOf) → asks_of fault.code ≡ Some asks → (trouble_at asks result.place (view value.now) ≡ Some (option_map told result.amiss)) ⊎ AllFit asks (view value.now) }
    ensures within { fault.step ≢ 0 → (result.place ≡ StepAt fault.step) × (option_map told result.amiss ≡ told_of_step fault.code fault.step (view value.now)) }
    ensures named { (mode : Mode) → reading mode (view value.now) ≡ Err fault → IsNamed result.place (option_map told result.amiss) fault (view value.now) }
{
    let (place, amiss) = found(value, fault);
    let field = match amiss {
        Some(Amiss { field, .. }) => field,
        None => "",
    };
    Hint {
        fault,
        place,
        amiss,
        held: Held::at(value, place, field),
        room: Room::at(value, place),
    }
}
