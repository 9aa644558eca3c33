//! What is told to people, on the standard error, beside what the sink takes.
use gic_top::{BAD_IMAGE, BAD_JSON, BAD_SCENARIO, Command, USAGE, read_image, read_trace};
use scn_hint::{Cause, Mode, ReadRefusal, code_name, hint_of, host_hint_of, read, read_host};
use serde_json::Value;
use std::alloc::Global;
use std::io::{Eprint, Result};

const HOW: &str =
    "usage: gicrun run | gicrun threads P Q | gicrun soak N STEPS | gicrun host | gicrun save STEP | gicrun resume | gicrun check (decimal numbers: P PEs, 1 to 8, with up to Q operations of a vCPU while it is on one, 1 to 1000; N from 0 to 2^64 - 1, STEPS and STEP from 0 to 100000; run, threads and save read a scenario from the standard input, host links of physical interrupts and their steps, resume what save wrote, check a trace)";

/// Tells why a value is no scenario in this mode.
fn explain_scenario(rt: &impl Eprint, alloc: Global, mode: Mode, value: &Value) -> Result<()> {
    match read(alloc, value, mode) {
        Err(ReadRefusal::Bad(fault)) => eprintln!(rt; "gicrun: {}", hint_of(value, fault)),
        _ => Ok(()),
    }
}

/// Tells why a value is no links and steps of them.
fn explain_links(rt: &impl Eprint, alloc: Global, value: &Value) -> Result<()> {
    match read_host(alloc, value) {
        Err(ReadRefusal::Bad(fault)) => eprintln!(rt; "gicrun: {}", host_hint_of(value, fault)),
        _ => Ok(()),
    }
}

/// Tells why a value is no scenario of which so many steps can be done.
fn explain_first(rt: &impl Eprint, alloc: Global, steps: u32, value: &Value) -> Result<()> {
    match read(alloc, value, Mode::Schedule) {
        Ok(scenario) => {
            let all = scenario.steps.len();
            eprintln!(rt;
                "gicrun: StepRange: {steps} steps are to be done, and the scenario has {all}"
            )
        }
        Err(ReadRefusal::Bad(fault)) => eprintln!(rt; "gicrun: {}", hint_of(value, fault)),
        Err(ReadRefusal::NoMemory) => Ok(()),
    }
}

/// Tells why a value is no image.
fn explain_image(rt: &impl Eprint, alloc: Global, value: &Value) -> Result<()> {
    let Err(ReadRefusal::Bad(fault)) = read_image(alloc, value) else {
        return Ok(());
    };
    let name = match fault.code {
        BAD_IMAGE => "BadImage, no run that can have been saved",
        code => code_name(code),
    };
    match fault.step {
        0 => eprintln!(rt; "gicrun: the image: {name}"),
        step => eprintln!(rt; "gicrun: step {step}: {name}"),
    }
}

/// Tells why a value is no trace.
fn explain_trace(rt: &impl Eprint, alloc: Global, value: &Value) -> Result<()> {
    let Err(ReadRefusal::Bad(fault)) = read_trace(alloc, value) else {
        return Ok(());
    };
    let name = code_name(fault.code);
    match fault.step {
        0 => eprintln!(rt; "gicrun: the trace: {name}"),
        event => eprintln!(rt; "gicrun: event {event}: {name}"),
    }
}

/// Tells why these bytes are not what a command reads.
fn explain_input(rt: &impl Eprint, alloc: Global, command: Command, bytes: &[u8]) -> Result<()> {
    let value = match Value::from_slice(alloc, bytes) {
        Ok(value) => value,
        Err(error) => {
            return match Cause::of(bytes) {
                Some(cause) => eprintln!(rt; "gicrun: {error}: {cause}"),
                None => eprintln!(rt; "gicrun: {error}"),
            };
        }
    };
    match command {
        Command::Run => explain_scenario(rt, alloc, Mode::Schedule, &value),
        Command::Threads { .. } => explain_scenario(rt, alloc, Mode::Threads, &value),
        Command::Host => explain_links(rt, alloc, &value),
        Command::Save { steps } => explain_first(rt, alloc, steps, &value),
        Command::Resume => explain_image(rt, alloc, &value),
        Command::Check => explain_trace(rt, alloc, &value),
        Command::Soak { .. } => Ok(()),
    }
}

/// Tells why a command, or words that are none, ended with a status, after these bytes were read.
pub(crate) fn explain(
    rt: &impl Eprint,
    alloc: Global,
    command: Option<Command>,
    status: u8,
    bytes: Option<&[u8]>,
) -> Result<()> {
    match (status, command, bytes) {
        (USAGE, _, _) => eprintln!(rt; "gicrun: {HOW}"),
        (BAD_JSON | BAD_SCENARIO, Some(command), Some(bytes)) => {
            explain_input(rt, alloc, command, bytes)
        }
        _ => Ok(()),
    }
}
