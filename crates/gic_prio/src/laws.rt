//! Laws of priorities and of the CPU interface.
ghost use Rattle.gic_prio.specs.Laws.{GroupPriorityIsPrefix, LastPointKeepsNoBit, MaskIsMonotone, RunningWhenIdle, FirstIsLeast, FirstIsThere, EndUndoesAcknowledge, SpuriousExactly, AcknowledgePreempts, InterruptsStay, InterfaceStays, AcknowledgedOnce};

/// A law of priority grouping: a group priority is its priority without some low bits.
pub fn group_priority_is_prefix()
    ensures { GroupPriorityIsPrefix }
{}

/// A law of priority grouping: where the binary point keeps no bit, each group priority is 0.
pub fn last_point_keeps_no_bit()
    ensures { LastPointKeepsNoBit }
{}

/// A law of the priority mask: a greater one signals no less.
pub fn mask_is_monotone()
    ensures { MaskIsMonotone }
{}

/// A law of the running priority: it is 0xFF exactly where no level is active.
pub fn running_when_idle()
    ensures { RunningWhenIdle }
{}

/// A law of the delivery order: the first candidate is one of them, and none is before it.
pub fn first_is_least()
    ensures { FirstIsLeast }
{}

/// A law of the delivery order: where there are candidates, one of them is the first.
pub fn first_is_there()
    ensures { FirstIsThere }
{}

/// A law of preemption: the end of an interrupt undoes what its acknowledge did to the record.
pub fn end_undoes_acknowledge()
    ensures { EndUndoesAcknowledge }
{}

/// A law of IAR: it answers 1023 exactly where there is no candidate, or the first one is of the other group or
/// is not signalled.
pub fn spurious_exactly()
    ensures { SpuriousExactly }
{}

/// A law of preemption: after an acknowledge the running priority is the group priority of the interrupt, and
/// only what is more urgent is signalled.
pub fn acknowledge_preempts()
    ensures { AcknowledgePreempts }
{}

/// A law of the interface: an access neither brings an interrupt there nor takes one away.
pub fn interrupts_stay()
    ensures { InterruptsStay }
{}

/// A law of the interface: what an access leaves of one is one, with at most one interrupt of each INTID.
pub fn interface_stays()
    ensures { InterfaceStays }
{}

/// A law of the interface: an interrupt that was acknowledged there cannot be acknowledged again.
pub fn acknowledged_once()
    ensures { AcknowledgedOnce }
{}
