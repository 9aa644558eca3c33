//! Laws of legal lists.
ghost use Rattle.legal_lists.specs.Laws.{MadeWasToCome, PartsOfLegalAreLegal, WholeLegalIsFresh};
ghost use Rattle.legal_lists.specs.Open.{OpenCallsAreRefused};
ghost use Rattle.legal_lists.specs.Worked.{UnfreshOnesAreRefused, WhatMayBeMade, WorkedListsAreLegal};

/// A law of every legal list: its first moments, as many as one likes, are one.
#[tactic(auto, using(crate::proofs::PartLaw::parts))]
pub fn parts_of_legal_are_legal()
    ensures { PartsOfLegalAreLegal }
{}

/// A law of every list of moments in which all calls ended: it is legal exactly where it is a history and fresh.
#[tactic(auto, using(crate::proofs::WholeLaw::whole))]
pub fn whole_legal_is_fresh()
    ensures { WholeLegalIsFresh }
{}

/// A law of every legal list: an event of an interrupt that an actor makes further on in its call, or in its command of
/// the ITS, is among those that it might make at each moment before; and so is what it may yet make at the end of the list. So
/// what may be made only shrinks until the call or the command ends.
#[tactic(auto, using(crate::proofs::CallLaw::made_was))]
pub fn made_was_to_come()
    ensures { MadeWasToCome }
{}

/// A law of nine worked histories that are fresh: each, cut after any of its moments, is a legal list.
#[tactic(auto, using(crate::proofs::WorkedLemmas::cut))]
pub fn worked_lists_are_legal()
    ensures { WorkedListsAreLegal }
{}

/// A law of four worked histories, each of which one clause of fresh refuses: each is a legal list up to the moment at which
/// that clause is asked, and no longer one after it.
#[tactic(auto, using(crate::proofs::WorkedLemmas::refused))]
pub fn unfresh_ones_are_refused()
    ensures { UnfreshOnesAreRefused }
{}

/// A law of five worked lists that break off while calls are open: each is legal up to its last moment, and refused with that. One
/// is a read that finds nothing once a message has ended; one raises an interrupt that its call does not have, and one ends without
/// the one that it has; in two an LPI that a read passed over can no longer be made pending by the call that was open there.
#[tactic(auto, using(crate::proofs::OpenLemmas::open_refused))]
pub fn open_calls_are_refused()
    ensures { OpenCallsAreRefused }
{}

/// A law of worked calls: of which interrupts they may make an event, before and after those that they made.
#[tactic(auto, using(crate::proofs::RowLemmas::rows))]
pub fn what_may_be_made()
    ensures { WhatMayBeMade }
{}
