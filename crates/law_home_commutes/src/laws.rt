//! Laws of the guest with all that stands at an interface taken back.
ghost use Rattle.law_home_commutes.specs.Laws.{MovesKeepHome, EventsPassHome, AccessesPassHome};
ghost use Rattle.law_home_commutes.specs.Worked.{AccessesShowHome, AccessesHideHome};

/// A law of every history of a good guest: where an interrupt gets to a CPU interface, becomes pending there or leaves it, the
/// guest with all taken back stays as it is.
pub fn moves_keep_home()
    ensures { MovesKeepHome }
{}

/// A law of every history of a good guest: every other event but an access of a CPU interface register does to the guest with all
/// taken back what the eager controller does, and hands out what is there.
pub fn events_pass_home()
    ensures { EventsPassHome }
{}

/// A law of every history of a good guest: an access of a CPU interface register answers and does what the eager controller
/// does with all taken back, where the interface shows that.
pub fn accesses_pass_home()
    ensures { AccessesPassHome }
{}

/// A law of worked accesses: an interface shows the guest with all taken back where an interrupt is acknowledged and where
/// it is ended, and any register that is only the vCPU's needs nothing of it.
#[tactic(auto, using(crate::proofs::WorkedLemmas::shows))]
pub fn worked_accesses_show_home()
    ensures { AccessesShowHome }
{}

/// A law of worked accesses: each clause of showing refuses one.
#[tactic(auto, using(crate::proofs::WorkedLemmas::hides))]
pub fn worked_accesses_hide_home()
    ensures { AccessesHideHome }
{}
