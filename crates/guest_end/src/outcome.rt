//! What the steps of a scenario leave beside the words.
ghost use Rattle.std.specs.Prelude.{◌≡◌};
ghost use Rattle.guest_end.specs.Outcome.{answer_by};

use port_core::{Answer, Answers, CpuRec, ListOf};

/// The records of CPU interfaces, in order of guest and vCPU.
pub type CpuRecs = ListOf<CpuRec>;

/// What the steps of a scenario answered, and the records of the CPU interfaces after them, while each vCPU is on no PE.
#[derive(Debug, Drop)]
pub struct Done {
    pub answers: Answers,
    pub cpus: CpuRecs,
}

/// What a step answers that read a value, or read nothing.
pub fn answer_of(value: Option<u64>) -> Answer
    ensures { result ≡ answer_by value }
{
    match value {
        Some(value) => Answer::Value(value),
        None => Answer::Nothing,
    }
}
