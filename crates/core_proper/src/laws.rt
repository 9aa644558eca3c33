//! Laws of every run with its parts.
ghost use Rattle.core_proper.specs.Laws.{ProperExtends, IdealOfAppends, PartsKeepEnd, ProgressFollows, PartsRest, WorkedRunIsProper, ExitRunIsProper, AgainRunIsProper, ClearRunIsProper};

/// A law of every actor: what it does is proper exactly where its beginning is, and the rest from where that ended.
#[tactic(auto, using(crate::proofs::PartLemmas::proper_append))]
pub fn proper_extends()
    ensures { ProperExtends }
{}

/// A law of every run: the ideal events of a run that goes on are those of its beginning, and then those of the rest from where that ended.
#[tactic(auto, using(crate::proofs::PartLemmas::ideal_append))]
pub fn ideal_of_appends()
    ensures { IdealOfAppends }
{}

/// A law of every run: with its parts it ends where its steps do.
#[tactic(auto, using(crate::proofs::PartLemmas::same_end))]
pub fn parts_keep_end()
    ensures { PartsKeepEnd }
{}

/// A law of every run: what an actor's own list says that it has for itself is what it has in the run.
#[tactic(auto, using(crate::proofs::FollowLemmas::progress_follows))]
pub fn progress_follows()
    ensures { ProgressFollows }
{}

/// A law of every actor: one that is at rest is at rest again after a proper part.
pub fn parts_rest()
    ensures { PartsRest }
{}

/// A worked run is proper, and stands for the history that it is to stand for.
#[tactic(auto, using(crate::proofs::WorkedLemmas::worked))]
pub fn worked_run_is_proper()
    ensures { WorkedRunIsProper }
{}

/// A worked run of a vCPU that goes to another PE is proper, and stands for the history that it is to stand for.
#[tactic(auto, using(crate::proofs::WorkedExitLemmas::exit))]
pub fn exit_run_is_proper()
    ensures { ExitRunIsProper }
{}

/// A worked run of an interrupt that is pending again is proper, and stands for the history that it is to stand for.
#[tactic(auto, using(crate::proofs::WorkedAgainLemmas::again))]
pub fn again_run_is_proper()
    ensures { AgainRunIsProper }
{}

/// A worked run of a clear of an interrupt at another vCPU's interface is proper, and stands for the history that it is to stand for.
#[tactic(auto, using(crate::proofs::WorkedClearLemmas::clear))]
pub fn clear_run_is_proper()
    ensures { ClearRunIsProper }
{}
