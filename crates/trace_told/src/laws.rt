//! Laws of what traces say.
ghost use Rattle.trace_told.specs.Laws.{OnlyReadsArePutIn, PartsCanBe, ToldOnesAreFaultless, TracesGoOn, VerdictsAreOne, WholeOnesAreFresh};
ghost use Rattle.trace_told.specs.Worked.{WorkedTraces};

/// A law of all events of traces: the first of some that can be, as many as one likes, can be. So the least number of first events that cannot
/// be is where a trace breaks.
#[tactic(auto, using(crate::proofs::PartLemmas::parts_can_be))]
pub fn parts_can_be()
    ensures { PartsCanBe }
{}

/// A law of all events of traces: they have one verdict at most.
#[tactic(auto, using(crate::proofs::VerdictLemmas::verdicts_are_one))]
pub fn verdicts_are_one()
    ensures { VerdictsAreOne }
{}

/// A law of all events of traces that can be: they say a history, and a fresh one where all calls have ended.
pub fn whole_ones_are_fresh()
    ensures { WholeOnesAreFresh }
{}

/// A law of each event of a trace: it says one moment, and beside it only reads, which leave the guest as it is without them.
#[tactic(auto, using(crate::proofs::ReadLemmas::only_reads))]
pub fn only_reads_are_put_in()
    ensures { OnlyReadsArePutIn }
{}

/// A law of all events of traces that can be: with one more they can be exactly where each moment that it says goes on with the legal list
/// that they say; and no events can be.
#[tactic(auto, using(crate::proofs::GoLemmas::traces_go_on))]
pub fn traces_go_on()
    ensures { TracesGoOn }
{}

/// A law of ten worked traces: one of a message that is acknowledged, which can be, cut after any of its events; one without events; and eight that break
/// off at an event that cannot be.
#[tactic(auto, using(crate::proofs::WorkedLemmas::worked_traces))]
pub fn traces_are_judged()
    ensures { WorkedTraces }
{}

/// A law of each event of a trace: none of the moments that it says is the end of a command with a fault, so `history_play::follow` can follow
/// them.
pub fn told_ones_are_faultless()
    ensures { ToldOnesAreFaultless }
{}
