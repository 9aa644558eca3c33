//! Laws of every run of the core.
ghost use Rattle.law_core_is_history.specs.Enables.{EnablesAgree};
ghost use Rattle.law_core_is_history.specs.Latches.{Latches};
ghost use Rattle.law_core_is_history.specs.Laws.{RunsAreSimulated, Simulates};
ghost use Rattle.law_core_is_history.specs.Posts.{PostsAreSignals, PostsEndAsCalls};
ghost use Rattle.law_core_is_history.specs.Sync.{SyncHolds};
ghost use Rattle.law_core_is_history.specs.Worked.{WorkedRunIsHistory};

/// A law of every run of a good guest's actors from its opening, in whatever order their steps come: each step is an
/// event of the ideal controller that may happen there and hands out what is there, or nothing; and at its end the
/// words and the actors say what the ideal controller has.
pub fn runs_are_simulated()
    ensures { RunsAreSimulated }
{}

/// A law of every run with its parts, each of which makes the events of its call: it is a history of the ideal
/// controller with the same answers, and at its end the words and the actors say what the ideal controller has.
pub fn simulates()
    ensures { Simulates }
{}

/// A worked run of a message, its acknowledge and its end meets what the laws ask of a run.
pub fn worked_run_is_history()
    ensures { WorkedRunIsHistory }
{}

/// A law of every run that can go on until all its parts ended: while nobody has the mark of GICD_CTLR, each interrupt's
/// word has copies of its group enables; and while an actor has it, the words up to a place in key order have the new
/// ones, and the others those before.
pub fn enables_agree()
    ensures { EnablesAgree }
{}

/// A law of every run whose parts make their calls, of an interrupt that is edge-triggered all along: its word or a vCPU's
/// interface has a latched cause exactly where one came since its causes were last cleared, or offered to a vCPU that
/// acknowledged them; and an acknowledge finds one at its vCPU's interface.
pub fn latches()
    ensures { Latches }
{}

/// A law of every run that can go on until all its parts ended: at each moment, as after a SYNC, the maps of the ITS are
/// what all good commands so far have mapped, and each of them did its parts before it ended, with each kick for them
/// sent; and a bad one stalls the queue where it is, and changes nothing else but the number of the fault.
pub fn sync_holds()
    ensures { SyncHolds }
{}

/// A law of every run whose parts so far are calls: where a device is in a translation line with a message, the LPI that it
/// found there is the one that the message signals, and no command of the ITS is midway.
pub fn posts_are_signals()
    ensures { PostsAreSignals }
{}

/// A law of every run whose parts so far are calls: a part that raises the LPI which the message's device found in a
/// translation line, while it is in that line, ends as the call of that message, whoever acts meanwhile.
pub fn posts_end_as_calls()
    ensures { PostsEndAsCalls }
{}
