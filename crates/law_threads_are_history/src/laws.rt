//! Laws of what the actors of a guest do side by side.
ghost use Rattle.law_threads_are_history.specs.History.{ThreadsAreAHistory};
ghost use Rattle.law_threads_are_history.specs.Worked.{WorkedThreadsAreAHistory};
ghost use Rattle.law_threads_are_history.specs.Woven.{ThreadsWeave};

/// A law of the actors of a good guest, each of which did its parts one after the other since the guest opened: in whatever order
/// their steps came, they are the moments of one proper run, in which each actor's own list is its parts.
pub fn threads_weave()
    ensures { ThreadsWeave }
{}

/// A law of the actors of a good guest that did their parts side by side: that run is one history of the ideal controller, in
/// which all calls ended, and each actor made the calls of its parts, with the same answers; and where no interrupt is at a CPU
/// interface, it ends as the words and actors say.
pub fn threads_are_a_history()
    ensures { ThreadsAreAHistory }
{}

/// A worked run of two actors meets what the law asks: a device makes SPI 40 pending while a vCPU enters, and the vCPU takes it
/// to its interface, acknowledges it, ends it, and leaves.
pub fn worked_threads_are_a_history()
    ensures { WorkedThreadsAreAHistory }
{}
