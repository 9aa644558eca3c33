//! Which interrupts have a row: those that the steps touch, the busiest first.
ghost use Rattle.std.specs.Prelude.{◌≡◌, ◌<◌, ◌≤◌, All, IfOk, IsTrue, OnOk, filter, length, map};
ghost use Rattle.ideal_guest.specs.Sound.{IsSound};
ghost use Rattle.gic_ideal.specs.Eager.{state_shapes};
ghost use Rattle.gic_picture.specs.Names.{is_there, names_from};
ghost use Rattle.gic_picture.specs.Steps.{can_act};
ghost use Rattle.gic_picture.specs.Marks.{irq_in as irq_at_name};
ghost use Rattle.gic_picture.specs.Rows.{is_same_irq as is_same_record, opening_tally as tally_at_opening, next_tally, tallies_of, has_row as has_row_of, calm_of, BusiestFirst};

use crate::marks::{irq_in, mark_of};
use crate::names::{IrqName, irq_names};
use crate::steps::do_step;
use gic_ideal::{IdealGuest, Step};
use ideal_guest::{Irq, ListOf, NoMemory};
use scn_base::MAX_STEPS;
use std::alloc::{AllocError, Global};

/// The most touches: one for each step of a scenario.
const MAX_TOUCHES: u32 = MAX_STEPS as u32;

/// What steps have done to an interrupt.
#[derive(Clone, Copy, Debug, PartialEq, Eq, Hash)]
pub struct Tally {
    pub name: IrqName,
    /// It was pending or active, or its wire was up, before the first step.
    pub marked: bool,
    /// Its record after the last step.
    pub last: Irq,
    /// How many of the steps changed its record.
    pub touches: u32,
}

/// Whether two records of an interrupt are alike, but for the copies of the group enables.
fn is_same_irq(a: &Irq, b: &Irq) -> bool
    ensures { result ≡ is_same_record a.now b.now }
{
    a.enabled == b.enabled
        && a.group == b.group
        && a.prio == b.prio
        && a.edge == b.edge
        && a.line == b.line
        && a.rise == b.rise
        && a.soft == b.soft
        && a.act_by == b.act_by
        && a.route == b.route
}

impl Tally {
    /// Before the first step.
    fn opening(guests: &[IdealGuest], name: IrqName) -> Self
        requires sound { All IsSound guests.now }
        requires there { IsTrue (is_there (state_shapes guests.now) name) }
        ensures { result ≡ tally_at_opening guests.now name }
    {
        let last = irq_in(guests, name);
        Tally {
            name,
            marked: mark_of(&last).is_marked(),
            last,
            touches: 0,
        }
    }

    /// After one more step, which left this record.
    fn after(&self, irq: Irq) -> Self
        requires { self.now.touches < MAX_TOUCHES }
        ensures { result ≡ next_tally irq self.now }
    {
        let touches = if is_same_irq(&self.last, &irq) {
            self.touches
        } else {
            self.touches + 1
        };
        Tally {
            last: irq,
            touches,
            ..*self
        }
    }

    /// Whether the interrupt has a row: a step touched it, or there was something to show of it before the first one.
    fn has_row(&self) -> bool
        ensures { result ≡ has_row_of self.now }
    {
        self.marked || self.touches > 0
    }
}

/// What is known of all interrupts before the first step.
fn opening_tallies(alloc: Global, guests: &[IdealGuest]) -> Result<ListOf<Tally>, AllocError>
    requires few { length guests.now ≤ 4 }
    requires sound { All IsSound guests.now }
    ensures { IfOk result (λ tallies. tallies ≡ map (tally_at_opening guests.now) (names_from 0 (state_shapes guests.now))) }
{
    let mut tallies = ListOf::new(alloc);
    for &name in irq_names(alloc, guests)?.as_slice() {
        tallies.push(Tally::opening(guests, name))?;
    }
    Ok(tallies)
}

/// What is known of interrupts after one more step, which left the guests so.
fn next_tallies(
    alloc: Global,
    tallies: &[Tally],
    guests: &[IdealGuest],
) -> Result<ListOf<Tally>, AllocError>
    requires sound { All IsSound guests.now }
    requires there { All (λ tally. IsTrue (is_there (state_shapes guests.now) tally.name)) tallies.now }
    requires room { All (λ tally. tally.touches < MAX_TOUCHES) tallies.now }
    ensures { IfOk result (λ next. next ≡ map (λ tally. next_tally (irq_at_name guests.now tally.name) tally) tallies.now) }
{
    let mut next = ListOf::new(alloc);
    for tally in tallies {
        next.push(tally.after(irq_in(guests, tally.name)))?;
    }
    Ok(next)
}

/// Does steps one after the other, and tells what they do to each interrupt.
pub(crate) fn tally_steps(
    alloc: Global,
    states: &mut Vec<IdealGuest>,
    steps: &[Step],
) -> Result<ListOf<Tally>, NoMemory>
    requires few { length states.old.items ≤ 4 }
    requires short { length steps.now ≤ MAX_TOUCHES }
    requires sound { All IsSound states.old.items }
    requires acts { All (λ step. IsTrue (can_act (state_shapes states.old.items) step)) steps.now }
    ensures { IfOk result (λ tallies. tallies ≡ tallies_of steps.now states.old.items) }
{
    let mut tallies = opening_tallies(alloc, states.as_slice())?;
    for step in steps {
        do_step(states, step);
        tallies = next_tallies(alloc, tallies.as_slice(), states.as_slice())?;
    }
    Ok(tallies)
}

/// Those of some interrupts that have a row.
fn with_rows(alloc: Global, tallies: &[Tally]) -> Result<Vec<Tally>, AllocError>
    ensures { IfOk result (λ rows. rows.items ≡ filter has_row_of tallies.now) }
{
    tallies
        .iter()
        .copied()
        .filter(|tally| tally.has_row())
        .collect(alloc)
}

/// How far an interrupt is from being the busiest that there can be.
fn calm(tally: &Tally) -> u32
    ensures { result ≡ calm_of tally.now }
{
    MAX_TOUCHES.saturating_sub(tally.touches)
}

/// Sorts interrupts, the busiest first; where equally many steps touched two, they stay in order.
fn sort(rows: &mut Vec<Tally>) -> Result<(), AllocError>
    ensures { OnOk result (BusiestFirst rows.new.items rows.old.items) }
{
    rows.sort_by_key(|tally| calm(tally))?;
    Ok(())
}

/// Those of some interrupts that have a row, the busiest first.
pub(crate) fn busiest_first(alloc: Global, tallies: &[Tally]) -> Result<Vec<Tally>, AllocError>
    ensures { IfOk result (λ rows. BusiestFirst rows.items (filter has_row_of tallies.now)) }
{
    let mut rows = with_rows(alloc, tallies)?;
    sort(&mut rows)?;
    Ok(rows)
}
