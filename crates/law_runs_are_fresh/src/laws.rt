//! Laws of runs of the core, in whatever order the steps of its actors come.
ghost use Rattle.law_runs_are_fresh.specs.First.{AcknowledgesFindTheFirst};
ghost use Rattle.law_runs_are_fresh.specs.Fresh.{RunsAreFresh};
ghost use Rattle.law_runs_are_fresh.specs.SoFar.{FreshSoFar};
ghost use Rattle.law_runs_are_fresh.specs.Worked.{AReadIsAlone, ATouchIsAwaited};

/// A law of every proper run of a good guest whose parts have all ended, each of them the call that it was begun for: its history is
/// fresh, in whatever order the steps of the actors come. An access of a CPU interface that asks for the first interrupt finds there
/// what is first, but for interrupts that open calls of others changed last or have still to change; what it finds at the interface,
/// and ends elsewhere, is as it is but for the same; and what is to leave the interface leaves before the call ends.
pub fn fresh_runs()
    ensures { RunsAreFresh }
{}

/// A law of every proper run of a good guest in which each access of a CPU interface comes first in its call, whether the calls have
/// ended or go on: it is fresh so far. An interrupt comes first at an acknowledge, and is not what that finds, only where the call
/// that changed it last is open and its actor still owes the vCPU a kick, or where an open call waits for it and has not touched it
/// since; the three other clauses of a fresh history hold as they are. So an interrupt that is kept from a vCPU is kept by a call that
/// goes on.
pub fn fresh_so_far()
    ensures { FreshSoFar }
{}

/// A law of the runs whose parts have ended: where a vCPU reads IAR or HPPIR and finds no kick, and no other actor is in a part, the first at its
/// interface is the first of all that would be deliverable to it if nothing stood there, but for those at another's interface.
pub fn acknowledges_find_the_first()
    ensures { AcknowledgesFindTheFirst }
{}

/// A worked run that meets the premises of `fresh_runs`: a vCPU waits for an SPI that another has at its interface; that one gives it
/// back, enters again and acknowledges nothing, though the SPI is pending for it and no open call changed it last, since it is
/// awaited: the first one clears it further on.
pub fn a_touch_is_awaited()
    ensures { ATouchIsAwaited }
{}

/// A read of a worked run that meets the premises of `acknowledges_find_the_first`.
pub fn a_read_is_alone()
    ensures { AReadIsAlone }
{}
