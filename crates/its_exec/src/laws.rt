//! The laws of runs of the queue.
ghost use Rattle.its_exec.specs.Run.{TakenAreRuns};

/// A law of commands that were taken, one after the other: they are the commands that the law of calls asks for, and
/// proper.
pub fn taken_are_runs()
    ensures { TakenAreRuns }
{}
