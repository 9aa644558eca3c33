//! The text of a run in two parts: that of its first steps, and the rest.

use std::alloc::{AllocError, Global};

/// How the last line begins, which has the number of steps behind it.
const LAST: &str = "end ";

/// The number with which a line begins, before a space: that of a step.
fn step_of(line: &str) -> Option<usize> {
    let (number, _) = line.split_once(' ')?;
    number.parse().ok()
}

/// How many steps the last line of a text tells; 0 where it has none.
pub(crate) fn steps_in(text: &str) -> usize {
    let mut steps = None;
    for line in text.lines() {
        if let Some(counts) = line.strip_prefix(LAST) {
            steps = step_of(counts);
        }
    }
    steps.unwrap_or(0)
}

/// The lines of a text without those of the first steps, so many.
pub(crate) fn rest_of(alloc: Global, text: &str, done: usize) -> Result<String, AllocError> {
    let mut rest = String::new(alloc);
    for line in text.lines() {
        if step_of(line).is_none_or(|step| step > done) {
            rest.push_str(line)?;
            rest.push('\n')?;
        }
    }
    Ok(rest)
}
