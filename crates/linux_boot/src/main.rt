//! Plays a recorded boot of Linux, and compares what each read answers with what QEMU's controller answered as it was recorded: in the order of the
//! recording, and on threads, where each CPU does its own accesses in their order and reads of ICC_IAR1 hang on timing.
#![tactic(auto)]

mod compare;
mod machine;
mod register;

use crate::compare::{Outcome, Read, count, reads_of};
use crate::machine::text_of_machine;
use gic_top::{NOTHING_SHOWN, OpenGate, SureSink, SureSource, run_tool};
use serde_json::Value;
use std::alloc::Global;
use std::process::ExitCode;
use std::sync::Wait;
use std::thread::Threads;
use std::{fs, str};

/// The scenario: each access of two CPUs, each wire and each MSI, in the order of the recording.
const BOOT: &str = "boot.json";

/// What QEMU's controller answered at each step, or null.
const QEMU: &str = "qemu.json";

/// The words for the order of the recording, and those for two threads.
const IN_ORDER: [&str; 1] = ["run"];

const ON_THREADS: [&str; 3] = ["threads", "2", "100"];

/// The text of the boot, played with these words. An error where it is no text.
fn text_of<R: Threads + Wait + Sync>(
    rt: &R,
    alloc: Global,
    words: &[&str],
    boot: &[u8],
) -> anyhow::Result<String> {
    let mut all = Vec::new(alloc);
    for word in words {
        all.push(String::from_str(alloc, word)?)?;
    }
    let mut source = SureSource::of(Vec::from_slice(alloc, boot)?);
    let mut sink = SureSink::new(alloc);
    let mut shown = NOTHING_SHOWN;
    run_tool(
        rt,
        alloc,
        all.as_slice(),
        &mut source,
        &mut sink,
        &OpenGate,
        &mut shown,
    );
    let taken = str::from_utf8(sink.taken().unwrap_or(b""))?;
    Ok(String::from_str(alloc, taken)?)
}

/// Tells of the reads of a kind, and of each step that answered otherwise. Whether none did, but for what is otherwise by choice.
fn tell(
    rt: &HostRuntime,
    what: &str,
    reads: &[Read],
    is_acknowledge: bool,
) -> anyhow::Result<bool> {
    let same = count(reads, is_acknowledge, Outcome::Same);
    let by_choice = count(reads, is_acknowledge, Outcome::ByChoice);
    let other = count(reads, is_acknowledge, Outcome::Other);
    println!(rt; "{what}: {same} as QEMU, {by_choice} otherwise by choice, {other} otherwise")?;
    for read in reads {
        if read.is_acknowledge == is_acknowledge && read.outcome == Outcome::Other {
            let number = read.number;
            println!(rt; "step {number}")?;
        }
    }
    Ok(other == 0)
}

fn main(rt: HostRuntime) -> anyhow::Result<ExitCode> {
    let alloc = rt.alloc();
    let boot = fs::read(&rt, BOOT)?;
    let scenario = Value::from_slice(alloc, boot.as_slice())?;
    let qemu = Value::from_slice(alloc, fs::read(&rt, QEMU)?.as_slice())?;
    let steps = scenario.get("steps").and_then(|steps| steps.as_array());
    let (Some(steps), Some(answers)) = (steps, qemu.as_array()) else {
        println!(rt; "no steps, or no answers")?;
        return Ok(ExitCode::FAILURE);
    };
    let text = text_of(&rt, alloc, &IN_ORDER, boot.as_slice())?;
    let reads = reads_of(alloc, steps.as_slice(), answers.as_slice(), text.as_str())?;
    let mut all = tell(&rt, "run, reads of IAR1", reads.as_slice(), true)?;
    all &= tell(&rt, "run, other reads", reads.as_slice(), false)?;
    let text = text_of_machine(alloc, steps.as_slice())?;
    let reads = reads_of(alloc, steps.as_slice(), answers.as_slice(), text.as_str())?;
    all &= tell(&rt, "machine, reads of IAR1", reads.as_slice(), true)?;
    all &= tell(&rt, "machine, other reads", reads.as_slice(), false)?;
    let text = text_of(&rt, alloc, &ON_THREADS, boot.as_slice())?;
    let reads = reads_of(alloc, steps.as_slice(), answers.as_slice(), text.as_str())?;
    all &= tell(&rt, "threads, other reads", reads.as_slice(), false)?;
    Ok(if all {
        ExitCode::SUCCESS
    } else {
        ExitCode::FAILURE
    })
}
