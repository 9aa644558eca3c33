//! Laws of the ideal controller.
ghost use Rattle.gic_ideal.specs.Laws.{LatchedExactly, EdgePendingExactly, AcknowledgeTakesCause, AcknowledgeAnswers, AnswerAcknowledges, SpuriousReadExactly, AcknowledgeRuns, DeactivatedBetween, CausedBetween, CausedBetweenReads, EventsKeepSound, StepsAreEvents, StepsCanFollow, RunsAreSound};

/// A law of the ideal controller: after any events, an interrupt has a latched cause exactly where one came since
/// the last event that took it away, or was there at first and no event took it away.
pub fn latched_exactly()
    ensures { LatchedExactly }
{}

/// A law of the ideal controller: from the opening on, an edge-triggered interrupt is pending exactly where a
/// cause came since the last event that took it away.
pub fn edge_pending_exactly()
    ensures { EdgePendingExactly }
{}

/// A law of the ideal controller: an interrupt that is acknowledged had a cause, and has lost it.
pub fn acknowledge_takes_cause()
    ensures { AcknowledgeTakesCause }
{}

/// A law of the ideal controller: an access that acknowledges an interrupt answers its INTID.
pub fn acknowledge_answers()
    ensures { AcknowledgeAnswers }
{}

/// A law of the ideal controller: a read of IAR that answers another INTID than 1023 acknowledges an interrupt
/// with it.
pub fn answer_acknowledges()
    ensures { AnswerAcknowledges }
{}

/// A law of the ideal controller: a read of IAR answers 1023 exactly where nothing is deliverable to the vCPU, or
/// the first interrupt that is deliverable is of the other group or is not signalled.
pub fn spurious_read_exactly()
    ensures { SpuriousReadExactly }
{}

/// A law of the ideal controller: after an acknowledge the running priority is the group priority of the
/// interrupt, and nothing of an equal or lower one is signalled.
pub fn acknowledge_runs()
    ensures { AcknowledgeRuns }
{}

/// A law of the ideal controller: an active interrupt is not acknowledged again before it is deactivated.
pub fn deactivated_between()
    ensures { DeactivatedBetween }
{}

/// A law of the ideal controller: between two acknowledges of one interrupt there is a new cause, or a level
/// line that is up.
pub fn caused_between()
    ensures { CausedBetween }
{}

/// A law of the ideal controller: between two reads of IAR that answer the INTID of one SPI there is a new
/// cause, or a level line that is up.
pub fn caused_between_reads()
    ensures { CausedBetweenReads }
{}

/// A law of the ideal controller: each event that can follow keeps a guest sound.
pub fn events_keep_sound()
    ensures { EventsKeepSound }
{}

/// A law of the ideal controller: what a guest is after some steps is what their events, one after the other, make
/// of it.
pub fn steps_are_events()
    ensures { StepsAreEvents }
{}

/// A law of the ideal controller: each event of the steps that guests can make can follow those before it, so the
/// laws of events hold of every run.
pub fn steps_can_follow()
    ensures { StepsCanFollow }
{}

/// A law of the ideal controller: each state that a guest reaches from its opening is sound.
pub fn runs_are_sound()
    ensures { RunsAreSound }
{}
