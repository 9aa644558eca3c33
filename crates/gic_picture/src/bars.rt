//! The bars of a row: stretches of states in which the same is shown of an interrupt.
ghost use Rattle.std.specs.Prelude.{◌≡◌, ◌+◌, ◌<◌, ◌++◌, ◌∷◌, [], ◌^◌, IfOk, OnOk, length, map};
ghost use Rattle.gic_picture.specs.Bars.{mark_at, shown_by};

use crate::marks::Mark;
use crate::picture::Picture;
use std::alloc::{AllocError, Global};

/// What is shown of an interrupt that has no row.
const NO_MARK: Mark = Mark {
    pending: false,
    active_by: None,
    line: false,
};

/// States one after the other in which the same is shown of an interrupt.
#[derive(Clone, Copy, Debug, PartialEq, Eq, Hash)]
pub struct Bar {
    pub mark: Mark,
    /// How many states, at least 1.
    pub states: usize,
}

/// Shows one more state.
fn add(bars: &mut Vec<Bar>, mark: Mark) -> Result<(), AllocError>
    requires { length (shown_by bars.old.items) + 1 < 2 ^ 64 }
    ensures { OnOk result (shown_by bars.new.items ≡ shown_by bars.old.items ++ mark ∷ []) }
{
    let start = Bar { mark, states: 1 };
    let Some(last) = bars.pop() else {
        bars.push(start)?;
        return Ok(());
    };
    if last.mark == mark {
        bars.push(Bar {
            mark,
            states: last.states + 1,
        })?;
        return Ok(());
    }
    bars.push(last)?;
    bars.push(start)?;
    Ok(())
}

/// The marks of a row, of each column.
fn marks_of(alloc: Global, picture: &Picture, row: usize) -> Result<Vec<Mark>, AllocError>
    ensures { IfOk result (λ marks. marks.items ≡ map (mark_at row) picture.now.columns) }
{
    let mut marks = Vec::new(alloc);
    for column in picture.columns.as_slice() {
        marks.push(column.marks.get(row).copied().unwrap_or(NO_MARK))?;
    }
    Ok(marks)
}

/// Bars that show these marks.
fn bars_of(alloc: Global, marks: &[Mark]) -> Result<Vec<Bar>, AllocError>
    ensures { IfOk result (λ bars. shown_by bars.items ≡ marks.now) }
{
    let mut bars = Vec::new(alloc);
    for &mark in marks {
        add(&mut bars, mark)?;
    }
    Ok(bars)
}

impl Picture {
    /// The bars of a row, numbered from 0: one after the other they show what each column has in the row. A row that is not there has nothing to show.
    pub fn bars(&self, alloc: Global, row: usize) -> Result<Vec<Bar>, AllocError>
        ensures { IfOk result (λ bars. shown_by bars.items ≡ map (mark_at row) self.now.columns) }
    {
        let marks = marks_of(alloc, self, row)?;
        bars_of(alloc, marks.as_slice())
    }
}
