//! Laws of the ends of runs.
ghost use Rattle.law_ends_agree.specs.End.{RunsEndAtHome};
ghost use Rattle.law_ends_agree.specs.Worked.{WorkedRunsEnd};

/// A law of every run of a good guest whose parts make their calls, and that ends with no interrupt at a CPU interface: an
/// end can be told from its words and CPU records, and has the lines of the ideal controller's guest with all that stands
/// at interfaces taken back.
pub fn runs_end_at_home()
    ensures { RunsEndAtHome }
{}

/// A law of worked runs that end so: a message's interrupt is pending, or was acknowledged and ended.
pub fn worked_runs_end()
    ensures { WorkedRunsEnd }
{}
