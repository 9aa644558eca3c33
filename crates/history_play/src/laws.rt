//! What histories are to the program.
ghost use Rattle.history_play.specs.Laws.{HistoriesAreAllowed};

/// A law: every history of a guest is allowed, so the program refuses none as `Forbidden`.
pub fn histories_are_allowed()
    ensures { HistoriesAreAllowed }
{}
