//! The run of a scenario on threads, with what it answers.
ghost use Rattle.std.specs.Prelude.{◌≡◌, ◌+◌, ◌<◌, ◌≤◌, IfOk, IfSome, OnOk};
ghost use Rattle.law_threads_are_history.specs.LawEagerIsHistory.Possible.{IsPossible};
ghost use Rattle.law_threads_are_history.specs.ScnBase.declared.step.Mode.TheVariants.{Threads as OnThreads};
ghost use Rattle.law_threads_are_history.specs.ScnBase.Good.{IsGood};

use crate::threaded::run_on;
use crate::watch::ThrWatch;
use std::alloc::Global;
use std::sync::Wait;
use std::thread::Threads;
use thr_cast::{Gate, NoMemory, RunOut, Scenario, ends_of, finish, start};

/// Runs a scenario on so many PEs (1 to 8), each a thread, with up to so many operations (1 to 1000) of a vCPU while it is on one,
/// and each device a thread, and shows the run to the watch, which was shown less than 2^64 - 1 before. What it answers is what
/// one fresh history of the ideal controller says of each guest. An error where memory is refused.
pub fn run<R: Threads + Wait + Sync, G: Gate + Sync, W: ThrWatch>(
    rt: &R,
    alloc: Global,
    scenario: &Scenario,
    pes: u32,
    per_turn: u32,
    gate: &G,
    watch: &mut W,
) -> Result<RunOut, NoMemory>
    requires good { IsGood OnThreads scenario.now }
    requires pes { 1 ≤ pes × pes ≤ 8 }
    requires per_turn { 1 ≤ per_turn × per_turn ≤ 1000 }
    requires room { W.threaded watch.old < 18446744073709551615 }
    ensures possible { IfOk result (λ out. IsPossible scenario.now out) }
    ensures counted { OnOk result (W.threaded watch.new ≡ W.threaded watch.old + 1) }
    ensures last { OnOk result (IfSome (W.last_threads watch.new) (λ shown. shown ≡ scenario.now)) }
    ensures never_falls { W.threaded watch.old ≤ W.threaded watch.new }
    ensures once { W.threaded watch.new ≤ W.threaded watch.old + 1 }
{
    let (words, mut root) = start(alloc, scenario)?;
    let done = run_on(rt, alloc, &words, &mut root, scenario, pes, per_turn, gate)?;
    watch.show_threads(scenario, &words, &root, &done);
    let left = finish(alloc, words, root)?;
    let ends = ends_of(alloc, &scenario.guests, &left, done.cpus.as_slice())?;
    Ok(RunOut {
        answers: done.answers,
        ends,
    })
}
