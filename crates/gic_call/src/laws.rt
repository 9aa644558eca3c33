//! Laws of what happens to one interrupt.
ghost use Rattle.gic_call.specs.Laws.{ReadsAreShown, LeaveUndoesReach, LeaveUndoesTake, TakeLosesNothing, AccessesKeepEntries, DeliveredIsCandidate};

/// A law of every touch: the record of an interrupt has what a touch of it reads.
#[tactic(auto, using(crate::proofs::TouchLemmas::shown))]
pub fn reads_are_shown()
    ensures { ReadsAreShown }
{}

/// A law of the moves: to leave right after getting to an interface changes nothing.
pub fn leave_undoes_reach()
    ensures { LeaveUndoesReach }
{}

/// A law of the moves: to leave after becoming pending at an interface is to leave before.
pub fn take_loses_nothing()
    ensures { TakeLosesNothing }
{}

/// A law of the moves: to leave after getting to an interface and becoming pending there changes nothing.
pub fn leave_undoes_take()
    ensures { LeaveUndoesTake }
{}

/// A law of the interface: an acknowledge and a deactivation leave what an interface can have of an interrupt.
pub fn accesses_keep_entries()
    ensures { AccessesKeepEntries }
{}

/// A law of delivery: a deliverable interrupt that got to an interface is a candidate there.
pub fn delivered_is_candidate()
    ensures { DeliveredIsCandidate }
{}
