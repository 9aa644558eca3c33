//! What a text says that steps read, beside what QEMU's controller answered.
use crate::register::{is_acknowledge, is_by_choice};
use serde_json::Value;
use std::alloc::{AllocError, Global};

/// How a step's read answered.
#[derive(Clone, Copy, PartialEq, Eq)]
pub(crate) enum Outcome {
    /// As QEMU's.
    Same,
    /// Otherwise, of a register that is otherwise by choice.
    ByChoice,
    /// Otherwise, or not at all.
    Other,
}

/// A step that reads.
#[derive(Clone, Copy)]
pub(crate) struct Read {
    pub(crate) number: usize,
    pub(crate) is_acknowledge: bool,
    pub(crate) outcome: Outcome,
}

/// How a step's read answered, where the text has this line of it, and should have that one.
fn outcome_of(step: &Value, line: &str, wanted: &str) -> Outcome {
    if line == wanted {
        Outcome::Same
    } else if is_by_choice(step) {
        Outcome::ByChoice
    } else {
        Outcome::Other
    }
}

/// The steps that read, in order. The text begins with a line for each; QEMU's answers are numbers, and null for a step that does not read.
pub(crate) fn reads_of(
    alloc: Global,
    steps: &[Value],
    answers: &[Value],
    text: &str,
) -> Result<Vec<Read>, AllocError> {
    let mut reads = Vec::new(alloc);
    let mut lines = text.lines();
    for (place, (step, answer)) in steps.iter().zip(answers).enumerate() {
        if let Some(value) = answer.as_u64() {
            let number = place + 1;
            let wanted = format!(in alloc; "{number} 0x{value:016x}")?;
            reads.push(Read {
                number,
                is_acknowledge: is_acknowledge(step),
                outcome: outcome_of(step, lines.next().unwrap_or(""), wanted.as_str()),
            })?;
        }
    }
    Ok(reads)
}

/// How many reads there are of a kind, with this outcome.
pub(crate) fn count(reads: &[Read], is_acknowledge: bool, outcome: Outcome) -> usize {
    reads
        .iter()
        .filter(|read| read.is_acknowledge == is_acknowledge && read.outcome == outcome)
        .count()
}
