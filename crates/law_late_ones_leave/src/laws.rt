//! Laws of every proper run of the core.
ghost use Rattle.law_late_ones_leave.specs.Late.{DeactivationsAreFresh, LateOnesLeave};
ghost use Rattle.law_late_ones_leave.specs.Worked.{LateRunLeaves, RaisedRunStays};

/// A law of every proper run in which accesses come first in their calls, of a vCPU that owes no scan or has nothing at its
/// interface: no interrupt that was deactivated there while it was pending in its record alone is still to leave.
pub fn late_ones_leave()
    ensures { LateOnesLeave }
{}

/// A law of every proper run in which accesses come first in their calls: each interrupt that was deactivated at a vCPU's
/// interface while it was pending in its record alone has left before that vCPU's call ends, as a fresh history asks.
pub fn deactivations_are_fresh()
    ensures { DeactivationsAreFresh }
{}

/// A worked run of a wire that stays up while its interrupt is ended meets what these laws ask of a run: the interrupt is then
/// to leave, and has left before that call ends.
pub fn late_run_leaves()
    ensures { LateRunLeaves }
{}

/// A worked proper run in which an access does not come first: a call ends while an interrupt is still to leave. So the laws
/// need that premise.
pub fn raised_run_stays()
    ensures { RaisedRunStays }
{}
