//! Laws of every history.
ghost use Rattle.law_histories.specs.Enables.{EnablesAgree};
ghost use Rattle.law_histories.specs.Held.{BasesAreHeld, TargetsStand};
ghost use Rattle.law_histories.specs.Latches.{Latches};
ghost use Rattle.law_histories.specs.Sync.{SyncHolds};
ghost use Rattle.law_histories.specs.Worked.{WriteIsHalfDone, MessagesMerge};
ghost use Rattle.law_histories.specs.WorkedQueue.{QueueIsSynced};
ghost use Rattle.law_histories.specs.WorkedReads.{ReadsCount};

/// A law of every history that can go on until all its calls ended: while nobody writes GICD_CTLR, each interrupt has a
/// copy of its group enables; and during a write the interrupts up to a place in key order have one of the new enables,
/// and the others one of those before.
pub fn enables_agree()
    ensures { EnablesAgree }
{}

/// A law of every history, of an interrupt that is edge-triggered all along: a latched cause of it is there exactly where
/// one came since its causes were last cleared, or offered to a vCPU that acknowledged them; and an acknowledge finds one
/// at its vCPU's interface. So each cause is acknowledged at most once, and none is lost where the interrupt moves.
pub fn latches()
    ensures { Latches }
{}

/// A law of every history that can go on until all its calls ended: at each moment, as after a SYNC, the maps of the ITS
/// are what all good commands so far have mapped, one after the other; each of them did its parts before it ended, and
/// each bad one stalled the queue and did nothing.
pub fn sync_holds()
    ensures { SyncHolds }
{}

/// A law of every history in which all calls ended: whoever stores GITS_CBASER has the ITS. So the queue stays where it is while
/// an actor does its commands.
pub fn bases_are_held()
    ensures { BasesAreHeld }
{}

/// A law of every history in which all calls ended: while an actor has the ITS, an LPI that its command has not mapped, moved or
/// forgotten yet is for the vCPU that it was for as the command began. So each part of a command finds *the* vCPU of its LPI.
pub fn targets_stand()
    ensures { TargetsStand }
{}

/// A law of a worked write of GICD_CTLR: it is a history that meets what `enables_agree` asks, and in the middle of it
/// one interrupt has the new enables, and another one those before.
#[tactic(auto, using(crate::proofs::WorkedLemmas::write_is_half_done))]
pub fn worked_write_is_half_done()
    ensures { WriteIsHalfDone }
{}

/// A law of two worked messages for one SPI: they meet what `latches` asks. They become one interrupt where the SPI is
/// offered again between the second message and the acknowledge, and else a cause is left.
#[tactic(auto, using(crate::proofs::WorkedLemmas::messages_merge))]
pub fn worked_messages_merge()
    ensures { MessagesMerge }
{}

/// A law of a worked queue of three commands, of which the last is none: it is a history that meets what `sync_holds`
/// asks, with a SYNC that ends and a command that stalls the queue.
#[tactic(auto, using(crate::proofs::WorkedQueueLemmas::queue_is_synced))]
pub fn worked_queue_is_synced()
    ensures { QueueIsSynced }
{}

/// A law of ten worked calls: a write of GITS_CWRITER, one of GITS_CBASER, a message-signalled interrupt and a write that sets
/// EnableLPIs, each by what its actor found while it has the ITS, or after EnableLPIs rose, are calls; by a read before that they
/// are none, whatever the guest has.
#[tactic(auto, using(crate::proofs::WorkedReadsLemmas::reads_count))]
pub fn worked_reads_count()
    ensures { ReadsCount }
{}
