//! Laws of every proper run of the core.
ghost use Rattle.law_registers_stand.specs.Asks.{GroupsMirrored, NoneAsserted};
ghost use Rattle.law_registers_stand.specs.Ends.{EndsAreSeen};
ghost use Rattle.law_registers_stand.specs.Stands.{RegistersStand};
ghost use Rattle.law_registers_stand.specs.Worked.{LevelRunIsBehind};

/// A law of every proper run, of a vCPU that may do accesses and owes no scan, or that found each interrupt active that it took
/// to its interface to end it there: its registers hold its CPU record, each interrupt at its interface that is pending or
/// active there has exactly one list register, with its INTID, priority, group and state, and no other list register has a
/// State other than 0.
pub fn registers_stand()
    ensures { RegistersStand }
{}

/// A law of every proper run, of a vCPU that may do accesses, is not in trap mode and owes no scan: its registers ask for the
/// maintenance interrupt of each change of a group's enable, that it is enabled where it is not, and that it is disabled where
/// it is. So an access that changes an enable asserts one, and a scan is owed.
pub fn groups_mirrored()
    ensures { GroupsMirrored }
{}

/// A law of every proper run, of such a vCPU that is not kicked and of which no claim failed: no maintenance interrupt is
/// asserted. So where that of no pending interrupt is asked for, some list register has State 1, and none has an end to be seen.
pub fn none_asserted()
    ensures { NoneAsserted }
{}

/// A law of every proper run, of such a vCPU that is not kicked and of which no claim failed, and of an interrupt at its interface
/// that is pending in its record and that nobody changed since it got there: each list register in which it is pending or active
/// has EOI set. So once its last list register is State 0 a maintenance interrupt is asserted, and it leaves.
pub fn ends_are_seen()
    ensures { EndsAreSeen }
{}

/// A worked run of a wire that stays up meets what these laws ask of a run.
pub fn level_run_is_behind()
    ensures { LevelRunIsBehind }
{}
