//! The law of what is saved.
ghost use Rattle.law_saved_runs_are_valid.specs.Valid.{SavedRunsAreValid, SavedRunsAreResumed};

/// A law of every scenario without a fault and every number of its steps: what is saved after them can have been saved.
pub fn saved_runs_are_valid()
    ensures { SavedRunsAreValid }
{}

/// A law of every scenario without a fault and every number of its steps: the image of what is saved after them reads as that, and the
/// lines of so many steps, and then the text of what is left of it, are the text of the whole run. The numbers of the messages to the
/// ITS have 32 bits, as those of each scenario that is read.
pub fn saved_runs_are_resumed()
    ensures { SavedRunsAreResumed }
{}
