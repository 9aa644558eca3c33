//! The texts of a scenario's two runs.
ghost use Rattle.gic_top.specs.ScnBase.Good.{IsGood};
ghost use Rattle.gic_top.specs.ScnBase.declared.step.Mode.TheVariants.{Schedule};

use gic_top::{Bytes, NOTHING_SHOWN, NoMemory, Scenario, eager, run_seq_run as run, text};
use std::alloc::Global;
use std::sync::Wait;

/// The text of the ideal controller, and that of the scheduled run, with how many runs were shown.
#[derive(Drop)]
pub(crate) struct Texts {
    pub(crate) ideal: Bytes,
    pub(crate) scheduled: Bytes,
    pub(crate) shown: u64,
}

/// Both runs of a scenario.
pub(crate) fn both_texts<R: Wait>(
    rt: &R,
    alloc: Global,
    scenario: &Scenario,
) -> Result<Texts, NoMemory>
    requires { IsGood Schedule scenario.now }
{
    let mut shown = NOTHING_SHOWN;
    let ideal = text(alloc, scenario, &eager(alloc, scenario)?)?;
    let out = run(rt, alloc, scenario, &mut shown)?;
    Ok(Texts {
        ideal,
        scheduled: text(alloc, scenario, &out)?,
        shown: shown.scheduled,
    })
}
