//! Pictures of some steps of a scenario.
ghost use Rattle.std.specs.Prelude.{◌≡◌, ◌+◌, ◌≤◌, All, IfOk, IsTrue, drop, length, map, take};
ghost use Rattle.std.specs.List.{range_with_len};
ghost use Rattle.scn_base.specs.declared.step.Mode.{Mode};
ghost use Rattle.scn_base.specs.Good.{IsGood};
ghost use Rattle.scn_base.specs.Standing.{has_vcpu};
ghost use Rattle.ideal_guest.specs.Calls.{shapes_of};
ghost use Rattle.ideal_guest.specs.Opening.{opening};
ghost use Rattle.ideal_guest.specs.Sound.{IsSound};
ghost use Rattle.gic_ideal.specs.Eager.{after_steps, state_shapes};
ghost use Rattle.gic_picture.specs.Names.{is_there};
ghost use Rattle.gic_picture.specs.Steps.{can_act};
ghost use Rattle.gic_picture.specs.Marks.{mark_in as mark_at_name, cpu_mark_in as cpu_mark_at_name};
ghost use Rattle.gic_picture.specs.Picture.{column_of as column_at, value_at, AreRows, IsPicture};

use crate::marks::{CpuMark, Mark, cpu_mark_in, mark_in};
use crate::names::{IrqName, vcpu_names};
use crate::rows::{Tally, busiest_first, tally_steps};
use crate::steps::{do_step, do_steps, open_all};
use gic_ideal::{IdealGuest, Scenario, Step, VcpuName};
use ideal_guest::{ListOf, NoMemory};
use scn_base::MAX_STEPS;
use std::alloc::{AllocError, Global};

/// The most rows of interrupts.
pub const MAX_ROWS: usize = 64;

/// What is shown of one state.
#[derive(Debug, Drop)]
pub struct Column {
    /// Of the interrupt of each row.
    pub marks: ListOf<Mark>,
    /// Of each vCPU's CPU interface.
    pub cpus: ListOf<CpuMark>,
}

/// What is shown of some steps.
#[derive(Debug, Drop)]
pub struct Picture {
    /// The interrupts that have a row, at most 64: those that most steps touch, and of these the busiest first.
    pub rows: ListOf<IrqName>,
    /// How many more would have one.
    pub left_out: usize,
    /// All vCPUs, in order of guest and number.
    pub vcpus: ListOf<VcpuName>,
    /// One for the state before the first step, and one for that after each.
    pub columns: ListOf<Column>,
    /// Of each step the value that it reads, if it is a vCPU's and reads.
    pub values: ListOf<Option<u64>>,
}

/// What is shown of interrupts.
fn marks_of(
    alloc: Global,
    guests: &[IdealGuest],
    rows: &[IrqName],
) -> Result<ListOf<Mark>, AllocError>
    requires sound { All IsSound guests.now }
    requires there { All (λ name. IsTrue (is_there (state_shapes guests.now) name)) rows.now }
    ensures { IfOk result (λ marks. marks ≡ map (mark_at_name guests.now) rows.now) }
{
    let mut marks = ListOf::new(alloc);
    for &name in rows {
        marks.push(mark_in(guests, name))?;
    }
    Ok(marks)
}

/// What is shown of CPU interfaces.
fn cpus_of(
    alloc: Global,
    guests: &[IdealGuest],
    vcpus: &[VcpuName],
) -> Result<ListOf<CpuMark>, AllocError>
    requires sound { All IsSound guests.now }
    requires there { All (λ name. IsTrue (has_vcpu (state_shapes guests.now) name.guest name.vcpu)) vcpus.now }
    ensures { IfOk result (λ cpus. cpus ≡ map (cpu_mark_at_name guests.now) vcpus.now) }
{
    let mut cpus = ListOf::new(alloc);
    for &name in vcpus {
        cpus.push(cpu_mark_in(guests, name))?;
    }
    Ok(cpus)
}

/// What is shown of one state.
fn column_of(
    alloc: Global,
    guests: &[IdealGuest],
    rows: &[IrqName],
    vcpus: &[VcpuName],
) -> Result<Column, AllocError>
    requires sound { All IsSound guests.now }
    requires rows { All (λ name. IsTrue (is_there (state_shapes guests.now) name)) rows.now }
    requires vcpus { All (λ name. IsTrue (has_vcpu (state_shapes guests.now) name.guest name.vcpu)) vcpus.now }
    ensures { IfOk result (λ column. column ≡ column_at rows.now vcpus.now guests.now) }
{
    Ok(Column {
        marks: marks_of(alloc, guests, rows)?,
        cpus: cpus_of(alloc, guests, vcpus)?,
    })
}

/// What is shown of the states before the first step and after each, and what each step reads.
#[derive(Debug, Drop)]
struct Shown {
    columns: ListOf<Column>,
    values: ListOf<Option<u64>>,
}

/// Does steps one after the other, and tells what is shown.
fn show_steps(
    alloc: Global,
    states: &mut Vec<IdealGuest>,
    steps: &[Step],
    rows: &[IrqName],
    vcpus: &[VcpuName],
) -> Result<Shown, NoMemory>
    requires sound { All IsSound states.old.items }
    requires acts { All (λ step. IsTrue (can_act (state_shapes states.old.items) step)) steps.now }
    requires rows { All (λ name. IsTrue (is_there (state_shapes states.old.items) name)) rows.now }
    requires vcpus { All (λ name. IsTrue (has_vcpu (state_shapes states.old.items) name.guest name.vcpu)) vcpus.now }
    ensures columns { IfOk result (λ shown. shown.columns
        ≡ map (λ n. column_at rows.now vcpus.now (after_steps (take n steps.now) states.old.items)) (range_with_len 0 (length steps.now + 1))) }
    ensures values { IfOk result (λ shown. shown.values ≡ map (value_at steps.now states.old.items) (range_with_len 0 (length steps.now))) }
{
    let mut columns = ListOf::new(alloc);
    let mut values = ListOf::new(alloc);
    columns.push(column_of(alloc, states.as_slice(), rows, vcpus)?)?;
    for step in steps {
        values.push(do_step(states, step))?;
        columns.push(column_of(alloc, states.as_slice(), rows, vcpus)?)?;
    }
    Ok(Shown { columns, values })
}

/// The interrupts of tallies.
fn names_of(alloc: Global, tallies: &[Tally]) -> Result<ListOf<IrqName>, AllocError>
    ensures { IfOk result (λ names. names ≡ map (λ tally. tally.name) tallies.now) }
{
    let mut names = ListOf::new(alloc);
    for tally in tallies {
        names.push(tally.name)?;
    }
    Ok(names)
}

/// The first of some interrupts, as many as there can be rows.
fn first_of(busiest: &[Tally]) -> &[Tally]
    ensures { result.now ≡ take MAX_ROWS busiest.now }
{
    if busiest.len() <= MAX_ROWS {
        busiest
    } else {
        &busiest[..MAX_ROWS]
    }
}

/// The interrupts that have a row.
#[derive(Debug, Drop)]
struct Chosen {
    rows: ListOf<IrqName>,
    left_out: usize,
}

/// Does steps one after the other, and tells which interrupts have a row in their picture.
fn choose(alloc: Global, states: &mut Vec<IdealGuest>, steps: &[Step]) -> Result<Chosen, NoMemory>
    requires few { length states.old.items ≤ 4 }
    requires short { length steps.now ≤ MAX_STEPS }
    requires sound { All IsSound states.old.items }
    requires acts { All (λ step. IsTrue (can_act (state_shapes states.old.items) step)) steps.now }
    ensures rows { IfOk result (λ chosen. AreRows steps.now states.old.items chosen.rows chosen.left_out) }
    ensures there { IfOk result (λ chosen. All (λ name. IsTrue (is_there (state_shapes states.old.items) name)) chosen.rows) }
{
    let tallies = tally_steps(alloc, states, steps)?;
    let busiest = busiest_first(alloc, tallies.as_slice())?;
    let rows = names_of(alloc, first_of(busiest.as_slice()))?;
    Ok(Chosen {
        rows,
        left_out: busiest.len().saturating_sub(MAX_ROWS),
    })
}

/// The states of the guests after the first steps.
fn states_after(
    alloc: Global,
    scenario: &Scenario,
    count: usize,
) -> Result<Vec<IdealGuest>, NoMemory>
    requires good { IsGood Mode.Schedule scenario.now }
    requires within { count ≤ length scenario.now.steps }
    ensures value { IfOk result (λ states. states.items ≡ after_steps (take count scenario.now.steps) (map opening scenario.now.guests)) }
    ensures sound { IfOk result (λ states. All IsSound states.items) }
    ensures shapes { IfOk result (λ states. state_shapes states.items ≡ shapes_of scenario.now.guests) }
{
    let mut states = open_all(alloc, &scenario.guests)?;
    do_steps(&mut states, &scenario.steps.as_slice()[..count]);
    Ok(states)
}

/// Some steps of a scenario: `shown` ones after the first `skipped`.
fn steps_of(scenario: &Scenario, skipped: usize, shown: usize) -> &[Step]
    requires good { IsGood Mode.Schedule scenario.now }
    requires within { skipped + shown ≤ length scenario.now.steps }
    ensures value { result.now ≡ take shown (drop skipped scenario.now.steps) }
    ensures acts { All (λ step. IsTrue (can_act (shapes_of scenario.now.guests) step)) result.now }
    ensures short { length result.now ≤ MAX_STEPS }
{
    &scenario.steps.as_slice()[skipped..][..shown]
}

/// The picture of some steps of a scenario that has no fault: of `shown` steps after the first `skipped` ones. The steps are done twice, so it takes
/// the time of two runs of the ideal controller, and that of looking at each interrupt after each step; an error where memory is refused.
pub fn picture_of(
    alloc: Global,
    scenario: &Scenario,
    skipped: usize,
    shown: usize,
) -> Result<Picture, NoMemory>
    requires good { IsGood Mode.Schedule scenario.now }
    requires within { skipped + shown ≤ length scenario.now.steps }
    ensures { IfOk result (IsPicture (take shown (drop skipped scenario.now.steps)) (after_steps (take skipped scenario.now.steps) (map opening scenario.now.guests))) }
{
    let steps = steps_of(scenario, skipped, shown);
    let mut states = states_after(alloc, scenario, skipped)?;
    let Chosen { rows, left_out } = choose(alloc, &mut states, steps)?;
    let mut states = states_after(alloc, scenario, skipped)?;
    let vcpus = vcpu_names(alloc, states.as_slice())?;
    let Shown { columns, values } = show_steps(
        alloc,
        &mut states,
        steps,
        rows.as_slice(),
        vcpus.as_slice(),
    )?;
    Ok(Picture {
        rows,
        left_out,
        vcpus,
        columns,
        values,
    })
}
