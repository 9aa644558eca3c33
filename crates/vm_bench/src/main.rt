//! Makes calls of a machine, over and over, and prints the sum of what was read. It reads no clock: the script `tools/bench` times it from outside.
#![tactic(auto)]

mod board;
mod queue;

use crate::board::{Name, access, opened, register};
use crate::queue::{map_event, refresh};
use gic_vm::Machine;
use std::alloc::Global;
use std::env;
use std::process::ExitCode;

/// The SPI that a device sends.
const SPI: u32 = 40;

/// What the words ask for.
#[derive(Clone, Copy)]
enum Job {
    /// Messages that are acknowledged and ended by one vCPU, with as many interrupts as a word says.
    Steps { is_large: bool },
    /// Looks at the lines of a vCPU.
    Lines,
    /// Writes of GITS_CWRITER that take an INV and a SYNC from the guest's memory, with eight vCPUs and 4,096 LPIs.
    Refresh,
}

/// What a word asks for. None for any other word.
fn job_of(word: &str) -> Option<Job> {
    match word {
        "small" => Some(Job::Steps { is_large: false }),
        "large" => Some(Job::Steps { is_large: true }),
        "lines" => Some(Job::Lines),
        "refresh" => Some(Job::Refresh),
        _ => None,
    }
}

/// A message, its acknowledge and its end. What was read, and none where a call is refused.
fn serve(machine: &mut Machine) -> Option<u64> {
    machine.message(SPI).ok()?;
    let intid = register(machine, Name::Iar1, None)?;
    register(machine, Name::Eoir1, Some(intid))?;
    Some(intid)
}

/// Does a job so many times. The sum of what was read; None where a call is refused.
fn run(alloc: Global, job: Job, count: u32) -> Option<u64> {
    let mut machine = match job {
        Job::Steps { is_large: false } => opened(alloc, 1, 32, 0)?,
        Job::Steps { is_large: true } => opened(alloc, 1, 960, 4096)?,
        Job::Lines => opened(alloc, 8, 960, 4096)?,
        Job::Refresh => opened(alloc, 8, 960, 4096)?,
    };
    if let Job::Refresh = job {
        map_event(&mut machine)?;
    }
    let mut sum = 0;
    for number in 0..count {
        let read = match job {
            Job::Steps { .. } => serve(&mut machine)?,
            Job::Lines => u64::from(machine.lines(number % 8).irq),
            Job::Refresh => refresh(&mut machine, number)?,
        };
        sum = u64::wrapping_add(sum, read);
    }
    Some(sum)
}

fn main(rt: HostRuntime) -> anyhow::Result<ExitCode> {
    let alloc = rt.alloc();
    let words: Vec<String> = env::args(&rt)?.skip(1).collect(alloc)?;
    let asked = match words.as_slice() {
        [job, count] => match (job_of(job.as_str()), count.as_str().parse().ok()) {
            (Some(job), Some(count)) => run(alloc, job, count),
            _ => None,
        },
        _ => None,
    };
    match asked {
        Some(sum) => {
            println!(rt; "{sum}")?;
            Ok(ExitCode::SUCCESS)
        }
        None => {
            println!(rt; "usage: vm_bench small|large|lines|refresh COUNT")?;
            Ok(ExitCode::FAILURE)
        }
    }
}
