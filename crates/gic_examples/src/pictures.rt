//! The pictures of scenarios.
use gic_timeline::timeline;
use scn_hint::{Mode, read};
use serde_json::Value;
use std::alloc::Global;

/// Whether an SVG is the picture of all steps of a scenario. An error where there is no scenario, or no memory.
pub(crate) fn is_picture(alloc: Global, input: &[u8], svg: &[u8]) -> anyhow::Result<bool> {
    let value = Value::from_slice(alloc, input)?;
    let scenario = read(alloc, &value, Mode::Schedule)?;
    let steps = scenario.steps.len();
    let text = timeline(alloc, &scenario, 0, steps)?;
    Ok(text.as_slice() == svg)
}
