//! The scheduled run of a scenario.
ghost use Rattle.std.specs.Prelude.{◌≡◌, ◌+◌, ◌<◌, ◌≤◌, IfOk, IfSome, OnOk, length, map};
ghost use Rattle.std.specs.List.{flat_map};
ghost use Rattle.law_ends_agree.specs.ScnBase.declared.step.Mode.TheVariants.{Schedule};
ghost use Rattle.law_ends_agree.specs.ScnBase.Good.{IsGood};
ghost use Rattle.law_ends_agree.specs.GicIdeal.Eager.{eager};
ghost use Rattle.law_ends_agree.specs.IdealGuests.Opening.{opening as opening_guest};
ghost use Rattle.law_one_thread_is_eager.specs.PortSeq.Ports.{told_all};
ghost use Rattle.law_one_thread_is_eager.specs.PortSeq.Told.{IsOpening, words_of_end};
ghost use Rattle.law_one_thread_is_eager.specs.SeqGuest.Guest.{cpus_of};
ghost use Rattle.run_seq.specs.Agenda.{CanBeDone, agenda_on, states_in};
ghost use Rattle.run_seq.specs.Run.{HasRun, IsDone, SamePorts};

use crate::machine::{Machine, first_of};
use crate::room::{rooms_for, take_room};
use crate::start::Start;
use crate::watch::SeqWatch;
use law_ends_agree::{Answers, CpuRecs, Done, NoMemory, RunOut, Scenario, Step, ends_of};
use law_one_thread_is_eager::{SeqPort, add_cpus};
use std::alloc::{AllocError, Global};
use std::sync::Wait;

/// The records of the CPU interfaces of all guests, by guest and vCPU. An error where memory for them is refused.
fn all_cpus(alloc: Global, port: &mut SeqPort, count: u32) -> Result<CpuRecs, AllocError>
    requires { count ≡ length (told_all port.old).guests }
    ensures same { SamePorts (told_all port.old) (told_all port.new) }
    ensures cpus { IfOk result (λ cpus. cpus ≡ flat_map cpus_of (told_all port.old).guests) }
{
    let mut cpus = CpuRecs::new(alloc);
    for guest in 0..count {
        port.set_actor(first_of(guest));
        add_cpus(port.current_mut(), &mut cpus)?;
    }
    Ok(cpus)
}

/// Does some steps one after the other, on the words of guests that opened, from where the run begins: what they answered, and the
/// records of the CPU interfaces once each vCPU that is on a PE has left it. Memory is asked for before the first step, and after the
/// last one for the records: an error comes where it is refused, and no step asks for any.
pub fn run_from<R: Wait>(
    rt: &R,
    alloc: Global,
    port: &mut SeqPort,
    start: &Start,
    steps: &[Step],
) -> Result<Done, NoMemory>
    requires opening { IsOpening (states_in (told_all port.old)) (told_all port.old) }
    requires all { start.now.guests ≡ length (told_all port.old).guests }
    requires can { CanBeDone (agenda_on (told_all port.old) start.now steps.now) }
    ensures { IfOk result (λ done. IsDone (agenda_on (told_all port.old) start.now steps.now) done (told_all port.new)) }
{
    let mut machine = Machine::opening(rt, alloc, port, start)?;
    let mut rooms = rooms_for(alloc, steps)?;
    let mut answers = Vec::with_capacity(alloc, steps.len())?;
    for step in steps {
        let room = take_room(&mut rooms, step);
        answers.push_reserved(machine.step(rt, port, step, room));
    }
    machine.close(rt, port);
    let cpus = all_cpus(alloc, port, start.guests)?;
    Ok(Done {
        answers: Answers::from(answers),
        cpus,
    })
}

/// The same of all steps of a scenario, on the words of its guests as they opened.
pub fn run_on<R: Wait>(
    rt: &R,
    alloc: Global,
    port: &mut SeqPort,
    scenario: &Scenario,
) -> Result<Done, NoMemory>
    requires good { IsGood Schedule scenario.now }
    requires opening { IsOpening (map opening_guest scenario.now.guests) (told_all port.old) }
    ensures { IfOk result (λ done. HasRun scenario.now done (told_all port.new)) }
{
    let start = Start::of(alloc, scenario)?;
    run_from(rt, alloc, port, &start, scenario.steps.as_slice())
}

/// Runs a scenario: its steps one after the other, through the words of its guests and vCPUs that enter and leave PEs with its list
/// registers, and shows the run to the watch, which was shown less than 2^64 - 1 before. An error where memory is refused, before the
/// first step or after the last one.
pub fn run<R: Wait, W: SeqWatch>(
    rt: &R,
    alloc: Global,
    scenario: &Scenario,
    watch: &mut W,
) -> Result<RunOut, NoMemory>
    requires good { IsGood Schedule scenario.now }
    requires room { W.scheduled watch.old < 18446744073709551615 }
    ensures value { IfOk result (λ out. out ≡ eager scenario.now) }
    ensures counted { OnOk result (W.scheduled watch.new ≡ W.scheduled watch.old + 1) }
    ensures last { OnOk result (IfSome (W.last_schedule watch.new) (λ shown. shown ≡ scenario.now)) }
    ensures never_falls { W.scheduled watch.old ≤ W.scheduled watch.new }
    ensures once { W.scheduled watch.new ≤ W.scheduled watch.old + 1 }
{
    let mut port = SeqPort::start(alloc, scenario)?;
    let done = run_on(rt, alloc, &mut port, scenario)?;
    watch.show_schedule(scenario, &port, &done);
    let words = port.finish(alloc)?;
    let ends = ends_of(alloc, &scenario.guests, &words, done.cpus.as_slice())?;
    Ok(RunOut {
        answers: done.answers,
        ends,
    })
}
