//! The steps of a scenario on threads, over the words of its guests.
ghost use Rattle.std.specs.Prelude.{◌≡◌, ◌≤◌, IfOk, OnOk, map};
ghost use Rattle.thr_cast.specs.PortTable.All.{told_words, told_root};
ghost use Rattle.thr_cast.specs.PortTable.Told.{AreRoots, IsOpening, opening_root};
ghost use Rattle.law_threads_are_history.specs.ScnBase.declared.step.Mode.TheVariants.{Threads as OnThreads};
ghost use Rattle.law_threads_are_history.specs.IdealGuests.Opening.{opening as opening_guest};
ghost use Rattle.law_threads_are_history.specs.ScnBase.Good.{IsGood};
ghost use Rattle.thr_cast.specs.Set.{IsSet};
ghost use Rattle.run_thr.specs.Run.{HasRun};

use crate::crew::run_crew;
use std::alloc::Global;
use std::marker::Brand;
use std::sync::Wait;
use std::thread::Threads;
use thr_cast::{
    Back, Cast, Done, Gate, Naming, NoMemory, RootSeat, Scenario, SharedWords, Turns, add_devices,
    add_pes, all_answers, close, gather, of, take_apart,
};

/// Does the steps of a scenario, whose run has a name.
fn run_as<'a, J: Naming + Send, R: Threads + Wait + Sync, G: Gate + Sync>(
    rt: &R,
    alloc: Global,
    words: &'a SharedWords,
    root: &mut RootSeat,
    scenario: &Scenario,
    pes: u32,
    per_turn: u32,
    gate: &G,
) -> Result<Done, NoMemory>
    requires words { told_words words.now ≡ J.words }
    requires steps { scenario.now.steps ≡ J.steps }
    requires lrs { scenario.now.lrs ≡ J.lrs }
    requires set { IsSet scenario.now J.words }
    requires opening { told_root root.old ≡ map opening_root J.words }
    requires pes { 1 ≤ pes × pes ≤ 8 }
    ensures ran { IfOk result (λ done. HasRun scenario.now done J.words (told_root root.new)) }
    ensures roots { OnOk result (AreRoots J.words (told_root root.new)) }
{
    let cast: Cast<'a, J> = Cast::of(alloc, words, root, scenario)?;
    let Cast { trips, devices } = cast;
    let (shelf, mut seat) = of(alloc, trips)?;
    let mut workers = Vec::new(alloc);
    add_pes(&shelf, &mut seat, pes, &mut workers)?;
    add_devices(devices, &mut workers)?;
    let turns = Turns {
        lrs: scenario.lrs,
        most: per_turn,
    };
    run_crew(rt, &shelf, turns, gate, &mut workers);
    gather(words, root, &shelf, &mut seat, workers);
    let slots = close(shelf, seat);
    let Back { heard, cpus } = take_apart(alloc, words, root, slots)?;
    let answers = all_answers(alloc, scenario.steps.as_slice(), heard.as_slice())?;
    Ok(Done { answers, cpus })
}

/// Does the steps of a scenario on so many PEs (1 to 8), each a thread, and each device a thread, on the words of its guests as
/// they opened: what they answered, and the records of the CPU interfaces once each vCPU has left. While a vCPU is on a PE it does
/// up to so many operations (1 to 1000). The PEs pass the gate. An error may come wherever memory is asked for.
pub fn run_on<R: Threads + Wait + Sync, G: Gate + Sync>(
    rt: &R,
    alloc: Global,
    words: &SharedWords,
    root: &mut RootSeat,
    scenario: &Scenario,
    pes: u32,
    per_turn: u32,
    gate: &G,
) -> Result<Done, NoMemory>
    requires good { IsGood OnThreads scenario.now }
    requires opening { IsOpening (map opening_guest scenario.now.guests) (told_words words.now) (told_root root.old) }
    requires pes { 1 ≤ pes × pes ≤ 8 }
    requires per_turn { 1 ≤ per_turn × per_turn ≤ 1000 }
    ensures ran { IfOk result (λ done. HasRun scenario.now done (told_words words.now) (told_root root.new)) }
    ensures roots { OnOk result (AreRoots (told_words words.now) (told_root root.new)) }
{
    run_as::<Brand, R, G>(rt, alloc, words, root, scenario, pes, per_turn, gate)
}
