//! Runs one schedule, through the words of its guest or by the ideal controller, or one of vCPUs that have nothing to do with each other,
//! in order or on threads, and prints how many values were read; or reads an image and writes it again. It reads no clock: the script `tools/bench` times it
//! from outside.
#![tactic(auto)]

mod again;
mod apart;
mod schedule;

use gic_top::{Answer, MAX_PES, Mode, NOTHING_SHOWN, NoMemory, OpenGate, RunOut, Scenario, eager};
use std::alloc::{AllocError, Global};
use std::env;
use std::process::ExitCode;
use std::sync::Wait;
use std::thread::Threads;

/// How many operations a vCPU does at most while it is on a PE of a run on threads.
const PER_TURN: u32 = 100;

/// Who runs the schedule.
#[derive(Clone, Copy)]
enum Runner {
    /// The scheduled run, through words and list registers.
    Words,
    /// The ideal controller.
    Ideal,
    /// The run on threads, on so many PEs.
    OnPes(u32),
}

/// What the words ask for.
#[derive(Clone, Copy)]
enum Job {
    /// One schedule whose guest has so many SPIs and LPIs.
    Crowded {
        runner: Runner,
        spis: u32,
        lpis: u32,
        steps: u32,
    },
    /// One of vCPUs that have nothing to do with each other.
    Apart {
        runner: Runner,
        steps: u32,
    },
}

/// Who is named by a word: not a number of PEs.
fn runner_of(word: &str) -> Option<Runner> {
    match word {
        "words" => Some(Runner::Words),
        "ideal" => Some(Runner::Ideal),
        _ => None,
    }
}

/// Who is named by a word, or how many PEs.
fn runner_or_pes(word: &str) -> Option<Runner> {
    match runner_of(word) {
        Some(runner) => Some(runner),
        None => Some(Runner::OnPes(word.parse().ok()?)),
    }
}

/// What the words ask for. None for any other words.
fn job_in(words: &[String]) -> Option<Job> {
    match words {
        [runner, spis, lpis, steps] => Some(Job::Crowded {
            runner: runner_of(runner.as_str())?,
            spis: spis.as_str().parse().ok()?,
            lpis: lpis.as_str().parse().ok()?,
            steps: steps.as_str().parse().ok()?,
        }),
        [apart, runner, steps] if apart.as_str() == "apart" => Some(Job::Apart {
            runner: runner_or_pes(runner.as_str())?,
            steps: steps.as_str().parse().ok()?,
        }),
        _ => None,
    }
}

/// The scenario that is asked for, and who runs it.
fn scenario_of(alloc: Global, job: Job) -> Result<(Scenario, Runner), AllocError> {
    match job {
        Job::Crowded {
            runner,
            spis,
            lpis,
            steps,
        } => Ok((schedule::scenario(alloc, spis, lpis, steps)?, runner)),
        Job::Apart { runner, steps } => Ok((apart::scenario(alloc, steps)?, runner)),
    }
}

/// The run of a scenario on threads, or none where that has a fault or there are no such PEs.
fn run_on_pes<R: Threads + Wait + Sync>(
    rt: &R,
    alloc: Global,
    pes: u32,
    scenario: &Scenario,
) -> Result<Option<RunOut>, NoMemory> {
    if pes == 0 || pes > MAX_PES || !scenario.is_good(alloc, Mode::Threads)? {
        return Ok(None);
    }
    let mut shown = NOTHING_SHOWN;
    Ok(Some(gic_top::run_thr_run(rt, alloc, scenario, pes, PER_TURN, &OpenGate, &mut shown)?))
}

/// The run of a scenario, or none where that has a fault.
fn run<R: Threads + Wait + Sync>(
    rt: &R,
    alloc: Global,
    runner: Runner,
    scenario: &Scenario,
) -> Result<Option<RunOut>, NoMemory> {
    if let Runner::OnPes(pes) = runner {
        return run_on_pes(rt, alloc, pes, scenario);
    }
    if !scenario.is_good(alloc, Mode::Schedule)? {
        return Ok(None);
    }
    let mut shown = NOTHING_SHOWN;
    Ok(Some(if matches!(runner, Runner::Words) {
        gic_top::run_seq_run(rt, alloc, scenario, &mut shown)?
    } else {
        eager(alloc, scenario)?
    }))
}

/// Prints whether the image that is read is the same as it is written again.
fn show_again(rt: &HostRuntime) -> anyhow::Result<ExitCode> {
    let is_same = again::is_same(rt)?;
    let what = if is_same {
        "the same image"
    } else {
        "another image"
    };
    println!(rt; "{what}")?;
    Ok(if is_same {
        ExitCode::SUCCESS
    } else {
        ExitCode::FAILURE
    })
}

fn main(rt: HostRuntime) -> anyhow::Result<ExitCode> {
    let words: Vec<String> = env::args(&rt)?.skip(1).collect(rt.alloc())?;
    if let [word] = words.as_slice() {
        if word.as_str() == "image" {
            return show_again(&rt);
        }
    }
    let Some(job) = job_in(words.as_slice()) else {
        println!(rt;
            "usage: run_bench words|ideal SPIS LPIS STEPS, run_bench apart words|ideal|PES STEPS, or run_bench image < IMAGE"
        )?;
        return Ok(ExitCode::from(2));
    };
    let (scenario, runner) = scenario_of(rt.alloc(), job)?;
    let Some(out) = run(&rt, rt.alloc(), runner, &scenario)? else {
        println!(rt; "no guest has so many interrupts, or no scenario so many steps or PEs")?;
        return Ok(ExitCode::from(2));
    };
    let reads = out
        .answers
        .iter()
        .filter(|answer| matches!(answer, Answer::Value(_)))
        .count();
    println!(rt; "read {reads}")?;
    Ok(ExitCode::SUCCESS)
}
