//! Shows a run of a scenario: which interrupts are pending and active after each step, and what the vCPUs see, as an SVG or as lines of text.
#![tactic(auto)]

ghost use Rattle.std.specs.Prelude.{◌+◌, ◌≤◌, length};
ghost use Rattle.gic_timeline.specs.GicPicture.ScnBase.declared.step.Mode.{Mode};
ghost use Rattle.gic_timeline.specs.GicPicture.ScnBase.Good.{IsGood};

#[cfg(test)]
mod tests;
mod words;

use crate::words::{Amiss, Ask, Look, MOST_STEPS, Part};
use gic_timeline::{NoMemory, Scenario, table, timeline};
use scn_hint::{Cause, Mode, ReadRefusal, hint_of, read};
use serde_json::Value;
use std::alloc::Global;
use std::env;
use std::io::Read;
use std::process::ExitCode;
use std::rt::Env;

/// The statuses, which are those of gicrun but for the first one.
const BAD_WORDS: u8 = 1;

const OK: u8 = 0;

const BAD_JSON: u8 = 3;

const BAD_SCENARIO: u8 = 4;

const READ_FAULT: u8 = 5;

const WRITE_FAULT: u8 = 6;

const NO_MEMORY: u8 = 9;

const HOW: &str =
    "usage: gic_view timeline | table [--from N] [--to M] (a scenario on the standard input; N and M are numbers of its steps, of which at most 2000 are shown)";

/// The words after the program's name; none where one is no text.
fn arguments(rt: &(impl Env + Alloc<A = Global>)) -> Option<Vec<String>> {
    env::args(rt).ok()?.skip(1).collect(rt.alloc()).ok()
}

/// Some steps of a scenario that has no fault, in a look.
fn shown(alloc: Global, scenario: &Scenario, look: Look, part: Part) -> Result<Vec<u8>, NoMemory>
    requires good { IsGood Mode.Schedule scenario.now }
    requires within { part.skipped + part.shown ≤ length scenario.now.steps }
{
    match look {
        Look::Timeline => timeline(alloc, scenario, part.skipped, part.shown),
        Look::Table => table(alloc, scenario, part.skipped, part.shown),
    }
}

/// Tells that steps are not shown, and answers the status.
fn refuse_part(rt: &impl Eprint, amiss: Amiss, steps: usize) -> u8 {
    let _ = match amiss {
        Amiss::TooMany => eprintln!(rt;
            "gic_view: {steps} steps are too many for one picture: choose at most {MOST_STEPS} by --from N --to M"
        ),
        Amiss::NotThere => eprintln!(rt;
            "gic_view: there are no such steps: the scenario has {steps}"
        ),
    };
    BAD_WORDS
}

/// Shows a scenario, and answers the status.
fn show(rt: &(impl Eprint + Print), alloc: Global, scenario: &Scenario, ask: Ask) -> u8
    requires { IsGood Mode.Schedule scenario.now }
{
    let steps = scenario.steps.len();
    let part = match ask.part_of(steps) {
        Ok(part) => part,
        Err(amiss) => return refuse_part(rt, amiss, steps),
    };
    match shown(alloc, scenario, ask.look, part) {
        Ok(text) => if rt.write_all(text.as_slice()).is_ok() {
            OK
        } else {
            WRITE_FAULT
        },
        Err(_) => NO_MEMORY,
    }
}

/// Tells why these bytes are no JSON, and answers the status.
fn refuse_bytes(rt: &impl Eprint, error: &serde_json::Error, bytes: &[u8]) -> u8 {
    let _ = match Cause::of(bytes) {
        Some(cause) => eprintln!(rt; "gic_view: {error}: {cause}"),
        None => eprintln!(rt; "gic_view: {error}"),
    };
    BAD_JSON
}

/// Reads a scenario, shows it, and answers the status.
fn view(rt: &(impl Eprint + Print), alloc: Global, bytes: &[u8], ask: Ask) -> u8 {
    let value = match Value::from_slice(alloc, bytes) {
        Ok(value) => value,
        Err(error) => return refuse_bytes(rt, &error, bytes),
    };
    match read(alloc, &value, Mode::Schedule) {
        Ok(scenario) => show(rt, alloc, &scenario, ask),
        Err(ReadRefusal::Bad(fault)) => {
            let _ = eprintln!(rt; "gic_view: {}", hint_of(&value, fault));
            BAD_SCENARIO
        }
        Err(ReadRefusal::NoMemory) => NO_MEMORY,
    }
}

fn main(rt: HostRuntime) -> ExitCode {
    let alloc = rt.alloc();
    let Some(ask) = arguments(&rt).and_then(|words| Ask::of(words.as_slice())) else {
        let _ = eprintln!(rt; "gic_view: {HOW}");
        return ExitCode::from(BAD_WORDS);
    };
    let mut bytes = Vec::new(alloc);
    if rt.reader().read_to_end(&mut bytes).is_err() {
        return ExitCode::from(READ_FAULT);
    }
    ExitCode::from(view(&rt, alloc, bytes.as_slice(), ask))
}
