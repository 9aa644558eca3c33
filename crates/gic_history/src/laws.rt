//! Laws of worked histories.
ghost use Rattle.gic_history.specs.Laws.{WorkedHistoriesAreFresh, EachClauseRefuses, WhatIsNotAllowed, EachLpiHasItsPlace, CommandsExcuseOnceRead, LoneRaisesAreRight};

/// A law of nine worked histories of a guest with two vCPUs: they are histories, and fresh.
#[tactic(auto, using(crate::proofs::WorkedLemmas::worked))]
pub fn worked_histories_are_fresh()
    ensures { WorkedHistoriesAreFresh }
{}

/// A law of the four clauses of fresh: each refuses a history that the other three let pass.
#[tactic(auto, using(crate::proofs::WorkedLemmas::refused))]
pub fn each_clause_refuses()
    ensures { EachClauseRefuses }
{}

/// A law of what may not happen: a touch or another reach of an interrupt at an interface, a move of one that is not
/// there, the use of a mark that the actor does not have, and a mark that another actor has.
#[tactic(auto, using(crate::proofs::WorkedLemmas::not_allowed))]
pub fn what_is_not_allowed()
    ensures { WhatIsNotAllowed }
{}

/// A law of a write of EnableLPIs during which LPIs are moved: each LPI counts by where it is between the events of the
/// write before and after its own place.
#[tactic(auto, using(crate::proofs::WorkedLemmas::own_places))]
pub fn each_lpi_has_its_place()
    ensures { EachLpiHasItsPlace }
{}

/// A law of a command of the ITS that is still to clear an LPI while a vCPU reads no INTID: it excuses that only once its
/// actor has the ITS and has read a doubleword of the command, and not while that waits for the ITS.
#[tactic(auto, using(crate::proofs::WorkedLemmas::once_read))]
pub fn commands_excuse_once_read()
    ensures { CommandsExcuseOnceRead }
{}

/// A law of a message-signalled interrupt that raises its LPI without taking the ITS: it does so only where the maps and
/// GITS_CTLR translate its event to that LPI, and no command that has changed an LPI is midway.
#[tactic(auto, using(crate::proofs::WorkedLemmas::lone_right))]
pub fn lone_raises_are_right()
    ensures { LoneRaisesAreRight }
{}
