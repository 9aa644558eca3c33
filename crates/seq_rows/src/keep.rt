//! Which drawn steps a scenario keeps.

ghost use Rattle.std.specs.Prelude.{◌≡◌, IfSome, None};
ghost use Rattle.gic_top.specs.ScnBase.declared.step.Mode.TheVariants.{Schedule};
ghost use Rattle.gic_top.specs.ScnBase.Good.{IsGood};
ghost use Rattle.gic_top.specs.ScnBase.Standing.{IsStanding};
ghost use Rattle.gic_top.specs.ScnBase.StepFault.{step_fault};

use gic_top::{ListOf, Mode, Scenario, Standing, Step, Steps};
use std::alloc::{AllocError, Global};

/// How many vCPUs are tried.
const TRIES: u32 = 3;

/// The step for another vCPU, so many further; a step of a device or a PE as it is.
fn by_other(step: &Step, further: u32) -> Step {
    match *step {
        Step::Vcpu { guest, vcpu, op } => Step::Vcpu {
            guest,
            vcpu: vcpu.wrapping_add(further) % TRIES,
            op,
        },
        Step::Device { .. } | Step::Pe { .. } => *step,
    }
}

/// The step, or for one of a vCPU that of the first of three vCPUs, that can be done; none where that is none.
fn able(standing: &Standing, step: &Step) -> Option<Step>
    requires { IsStanding standing.now }
    ensures { IfSome result (λ able. step_fault Schedule standing.now able ≡ None) }
{
    for further in 0..TRIES {
        let able = by_other(step, further);
        if standing.fault_of(Mode::Schedule, &able).is_none() {
            return Some(able);
        }
    }
    None
}

/// The steps that can be done, one after the other.
pub(crate) fn able_steps(
    alloc: Global,
    standing: Standing,
    drawn: &[Step],
) -> Result<Steps, AllocError>
    requires { IsStanding standing }
{
    let mut standing = standing;
    let mut steps = ListOf::new(alloc);
    for step in drawn {
        if let Some(able) = able(&standing, step) {
            standing.follow(&able);
            steps.push(able)?;
        }
    }
    Ok(steps)
}

/// A good scenario without steps, with those of the drawn ones that can be done.
pub(crate) fn keep(
    alloc: Global,
    mut scenario: Scenario,
    drawn: &[Step],
) -> Result<Scenario, AllocError>
    requires { IsGood Schedule scenario }
{
    let standing = Standing::opening(alloc, scenario.pes, scenario.guests.as_slice())?;
    scenario.steps = able_steps(alloc, standing, drawn)?;
    Ok(scenario)
}
