//! Laws of runs in two parts, and of runs from states that are alike.
ghost use Rattle.law_runs_split.specs.Split.{EagerIsFromOpening, RunsSplit};
ghost use Rattle.law_runs_split.specs.Faults.{PastFaultsDoNotMatter};

/// A law of every scenario: its run is the run of its steps from the states in which its guests open.
pub fn eager_is_from_opening()
    ensures { EagerIsFromOpening }
{}

/// A law of every run of the ideal controller, from any states: one that is broken off after some steps, and goes on from the
/// states and the PEs that were reached, answers what the whole run answers, and ends as it does.
pub fn runs_split()
    ensures { RunsSplit }
{}

/// A law of every run of the ideal controller: from states that differ in the number of a fault by which nothing is stalled, and in
/// nothing else, it answers the same and ends in the same lines.
pub fn past_faults_do_not_matter()
    ensures { PastFaultsDoNotMatter }
{}
