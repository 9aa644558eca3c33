//! The reading of a scenario.
ghost use Rattle.std.specs.Prelude.{◌≡◌, ◌≤◌, ◌+◌, MatchResult, IfOk, IfErr, Ok, Some, length, map};
ghost use Rattle.serde_json.specs.View.{view};
ghost use Rattle.scn_base.specs.Standing.{IsStanding};
ghost use Rattle.scn_read.specs.Reading.{scenario_fault, steps_of, reading, Refuses, IsOpening};
ghost use Rattle.scn_base.specs.Good.{IsGood};

use crate::defaults::{DEFAULT_LIST_REGISTERS, DEFAULT_PES};
use crate::guest::guests;
use crate::refusal::ReadRefusal;
use crate::step::step;
use json_field::{elements_at, has_only, list_at, number_or};
use scn_base::{
    Fault, LIMIT, MAX_GUESTS, MAX_PES, MAX_STEPS, Mode, SHAPE, Scenario, Standing, Steps, both,
    is_list_register_count,
};
use serde_json::Value;
use std::alloc::Global;

const PES: &str = "pes";

const LRS: &str = "lrs";

const GUESTS: &str = "guests";

const STEPS: &str = "steps";
/// The fields of a scenario.
pub const SCENARIO_FIELDS: [&str; 4] = [PES, LRS, GUESTS, STEPS];

/// The step of a fault outside of the steps.
const OUTSIDE: u32 = 0;
/// The number of the first step.
const FIRST_STEP: u32 = 1;

/// What a scenario has beside its guests, before its steps are read.
#[derive(Clone, Copy)]
struct Parts<'v> {
    pes: u32,
    lrs: u32,
    steps: &'v [Value],
}

/// The PEs, the list registers and the steps of a scenario, or the fault of its own fields.
fn opening(value: &Value) -> Result<Parts<'_>, u8>
    ensures { let d = view value.now in MatchResult result
        (λ parts. IsOpening d parts.pes parts.lrs (map view parts.steps.now))
        (λ code. scenario_fault d ≡ Some code) }
{
    if !has_only(value, &SCENARIO_FIELDS) {
        return Err(SHAPE);
    }
    let pes = number_or(value, PES, u64::from(DEFAULT_PES)).ok_or(SHAPE)?;
    let lrs = number_or(value, LRS, u64::from(DEFAULT_LIST_REGISTERS)).ok_or(SHAPE)?;
    let guests = list_at(value, GUESTS).ok_or(SHAPE)?;
    let steps = list_at(value, STEPS).ok_or(SHAPE)?;
    if !(1..=u64::from(MAX_PES)).contains(&pes) || !is_list_register_count(lrs) {
        return Err(LIMIT);
    }
    if !(1..=MAX_GUESTS).contains(&guests.len()) || steps.len() > MAX_STEPS {
        return Err(LIMIT);
    }
    Ok(Parts {
        pes: pes as u32,
        lrs: lrs as u32,
        steps,
    })
}

/// The steps that JSON values are, from a standing on; the first has the number `first`, from 1, and the last one at most 100,000. `Bad` is the first fault
/// of them, each judged by the standing before it; where memory is refused, the answer is `NoMemory`.
pub fn steps(
    alloc: Global,
    values: &[Value],
    mode: Mode,
    mut standing: Standing,
    first: u32,
) -> Result<Steps, ReadRefusal>
    requires standing { IsStanding standing }
    requires few { first + length values.now ≤ 100001 }
    ensures ok { IfOk result (λ steps. steps_of mode standing first (map view values.now) ≡ Ok steps) }
    ensures bad { IfErr result (Refuses (steps_of mode standing first (map view values.now))) }
{
    let mut steps = Steps::new(alloc);
    for (index, value) in values.iter().enumerate() {
        match step(value, mode, &standing) {
            Ok(step) => {
                standing.follow(&step);
                steps.push(step)?;
            }
            Err(code) => {
                return Err(ReadRefusal::Bad(Fault {
                    code,
                    step: first + index as u32,
                }));
            }
        }
    }
    Ok(steps)
}

/// The scenario that a JSON value is.
///
/// A number is an unsigned integer below 2^64, or a text of `0x` and 1 to 16 hexadecimal digits. A value that is no
/// scenario for this mode is `Bad`, with the first of its faults: that of the least step, where 0 is the number of all
/// that stands outside of the steps, and of these the least code. Where memory is refused, the answer is `NoMemory`,
/// whatever the value is. It takes time linear in the value.
pub fn read(alloc: Global, value: &Value, mode: Mode) -> Result<Scenario, ReadRefusal>
    ensures ok { IfOk result (λ scenario. reading mode (view value.now) ≡ Ok scenario) }
    ensures good { IfOk result (IsGood mode) }
    ensures bad { IfErr result (Refuses (reading mode (view value.now))) }
{
    let guests = guests(alloc, elements_at(value, GUESTS))?;
    let (opening, guests) = match both(opening(value), guests) {
        Ok(parts) => parts,
        Err(code) => {
            return Err(ReadRefusal::Bad(Fault {
                code,
                step: OUTSIDE,
            }));
        }
    };
    let standing = Standing::opening(alloc, opening.pes, guests.as_slice())?;
    let steps = steps(alloc, opening.steps, mode, standing, FIRST_STEP)?;
    Ok(Scenario {
        pes: opening.pes,
        lrs: opening.lrs,
        guests,
        steps,
    })
}
