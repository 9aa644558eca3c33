//! The lines of a run in their order: the answers, the end of each guest, the counts.

ghost use Rattle.std.specs.Prelude.{◌≡◌, ◌+◌, ◌≤◌, [], ◌++◌, OnOk, IfOk, length, count_by, string_bytes};
ghost use Rattle.std.specs.List.{flat_map};
ghost use Rattle.std.specs.Option.{option_map_or};
ghost use Rattle.gic_report.specs.Text.{answer_lines, gicd_line, its_line, cpu_line, irq_line, dev_line, evt_line, col_line, mapped_lines, guest_lines, end_lines, counts_of, text as text_of};
ghost use Rattle.gic_report.specs.Rest.{text_saved as rest_of};
ghost use Rattle.scn_saved.specs.Read.{is_read as reads};

use crate::lines::{
    write_answer, write_col, write_cpu, write_dev, write_evt, write_gicd, write_irq, write_its,
};
use gic_io::{Bytes, NoMemory};
use gic_soak::{
    Answers, ColEnds, CpuEnds, DevEnds, End, Ends, EvtEnds, IrqEnds, ItsEnd, RunOut,
    ScenarioScenario as Scenario, Step,
};
use scn_saved::{Saved, is_read};
use std::alloc::{AllocError, Global};
use std::fmt::Write;

/// Writes the lines of steps before which so many were done.
fn write_answers(text: &mut String, done: u32, answers: &Answers) -> Result<(), AllocError>
    ensures { OnOk result (string_bytes text.new ≡ string_bytes text.old ++ answer_lines (done + 1) answers.now) }
{
    let mut step = done as usize;
    for answer in answers.as_slice() {
        step += 1;
        write_answer(text, step, answer)?;
    }
    Ok(())
}

/// Writes the lines of a guest's CPU interfaces.
fn write_cpus(text: &mut String, guest: usize, ends: &CpuEnds) -> Result<(), AllocError>
    ensures { OnOk result (string_bytes text.new ≡ string_bytes text.old ++ flat_map (cpu_line guest) ends.now) }
{
    for end in ends.as_slice() {
        write_cpu(text, guest, end)?;
    }
    Ok(())
}

/// Writes the lines of a guest's interrupts.
fn write_irqs(text: &mut String, guest: usize, ends: &IrqEnds) -> Result<(), AllocError>
    ensures { OnOk result (string_bytes text.new ≡ string_bytes text.old ++ flat_map (irq_line guest) ends.now) }
{
    for end in ends.as_slice() {
        write_irq(text, guest, end)?;
    }
    Ok(())
}

/// Writes the lines of the devices that are mapped.
fn write_devs(text: &mut String, guest: usize, ends: &DevEnds) -> Result<(), AllocError>
    ensures { OnOk result (string_bytes text.new ≡ string_bytes text.old ++ flat_map (dev_line guest) ends.now) }
{
    for end in ends.as_slice() {
        write_dev(text, guest, end)?;
    }
    Ok(())
}

/// Writes the lines of the events that are mapped.
fn write_evts(text: &mut String, guest: usize, ends: &EvtEnds) -> Result<(), AllocError>
    ensures { OnOk result (string_bytes text.new ≡ string_bytes text.old ++ flat_map (evt_line guest) ends.now) }
{
    for end in ends.as_slice() {
        write_evt(text, guest, end)?;
    }
    Ok(())
}

/// Writes the lines of the collections that are mapped.
fn write_cols(text: &mut String, guest: usize, ends: &ColEnds) -> Result<(), AllocError>
    ensures { OnOk result (string_bytes text.new ≡ string_bytes text.old ++ flat_map (col_line guest) ends.now) }
{
    for end in ends.as_slice() {
        write_col(text, guest, end)?;
    }
    Ok(())
}

/// Writes the lines of what the ITS has mapped.
fn write_mapped(text: &mut String, guest: usize, end: &End) -> Result<(), AllocError>
    ensures { OnOk result (string_bytes text.new ≡ string_bytes text.old ++ mapped_lines guest end.now) }
{
    write_devs(text, guest, &end.devs)?;
    write_evts(text, guest, &end.evts)?;
    write_cols(text, guest, &end.cols)
}

/// Writes the lines of a guest.
fn write_guest(text: &mut String, guest: usize, end: &End) -> Result<(), AllocError>
    ensures { OnOk result (string_bytes text.new ≡ string_bytes text.old ++ guest_lines guest end.now) }
{
    write_distributor(text, guest, end.gicd)?;
    write_cpus(text, guest, &end.cpus)?;
    write_irqs(text, guest, &end.irqs)?;
    write_translator(text, guest, end.its)?;
    write_mapped(text, guest, end)
}

/// Writes the line of GICD_CTLR, if there is one.
fn write_distributor(text: &mut String, guest: usize, ctlr: Option<u32>) -> Result<(), AllocError>
    ensures { OnOk result (string_bytes text.new ≡ string_bytes text.old ++ option_map_or (gicd_line guest) ctlr []) }
{
    match ctlr {
        Some(ctlr) => write_gicd(text, guest, ctlr),
        None => Ok(()),
    }
}

/// Writes the line of the ITS, if there is one.
fn write_translator(text: &mut String, guest: usize, its: Option<ItsEnd>) -> Result<(), AllocError>
    ensures { OnOk result (string_bytes text.new ≡ string_bytes text.old ++ option_map_or (its_line guest) its []) }
{
    match its {
        Some(its) => write_its(text, guest, &its),
        None => Ok(()),
    }
}

/// Writes the lines of the guests.
fn write_ends(text: &mut String, ends: &Ends) -> Result<(), AllocError>
    ensures { OnOk result (string_bytes text.new ≡ string_bytes text.old ++ end_lines 0 ends.now) }
{
    for (guest, end) in ends.as_slice().iter().enumerate() {
        write_guest(text, guest, end)?;
    }
    Ok(())
}

/// How many steps read.
fn reads_in(steps: &[Step]) -> usize
    ensures counted { result ≡ count_by reads steps.now }
    ensures few { result ≤ length steps.now }
{
    steps.iter().filter(|step| is_read(step)).count()
}

/// Writes the last line, of so many steps, so many of which read.
fn write_counts(text: &mut String, steps: usize, reads: usize) -> Result<(), AllocError>
    ensures { OnOk result (string_bytes text.new ≡ string_bytes text.old ++ counts_of steps reads) }
{
    writeln!(text, "end {steps} {reads}")
}

/// The text of a scenario and its run.
pub fn text(alloc: Global, scenario: &Scenario, out: &RunOut) -> Result<Bytes, NoMemory>
    ensures { IfOk result (λ bytes. bytes ≡ text_of scenario.now out.now) }
{
    let mut text = String::new(alloc);
    write_answers(&mut text, 0, &out.answers)?;
    write_ends(&mut text, &out.ends)?;
    let steps = scenario.steps.as_slice();
    write_counts(&mut text, steps.len(), reads_in(steps))?;
    Ok(Bytes::from(text.into_bytes()))
}

/// The text of what is left of a saved run: its steps have the numbers after those that were done, and the last line counts the steps of the
/// whole run. `NoMemory` where memory is refused.
pub fn text_saved(alloc: Global, saved: &Saved, out: &RunOut) -> Result<Bytes, NoMemory>
    ensures { IfOk result (λ bytes. bytes ≡ rest_of saved.now out.now) }
{
    let mut text = String::new(alloc);
    write_answers(&mut text, saved.done, &out.answers)?;
    write_ends(&mut text, &out.ends)?;
    let rest = saved.scenario.steps.as_slice();
    let all = saved.done as usize + rest.len();
    let reads = saved.reads as usize + reads_in(rest);
    write_counts(&mut text, all, reads)?;
    Ok(Bytes::from(text.into_bytes()))
}
