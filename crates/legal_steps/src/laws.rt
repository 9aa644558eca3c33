//! Laws of legal lists, one moment after the other.
ghost use Rattle.legal_steps.specs.Laws.{LegalListsGoOn, OnePassIsEnough};

/// A law of all moments of a guest: each of their reads of IAR and HPPIR is fresh, as far as what is still to come can be told, exactly
/// where each interrupt that still waits at their end may be answered by a call, or a command, that was open at its read and still is.
#[tactic(auto, using(crate::proofs::PassLaw::one_pass))]
pub fn one_pass_is_enough()
    ensures { OnePassIsEnough }
{}

/// A law of each legal list: with one moment more it is legal exactly where that moment goes on with it, by what one pass over the list
/// knows. Of the open calls only that of the moment's actor is asked again. No moments are a legal list.
#[tactic(auto, using(crate::proofs::StepLaw::go_on))]
pub fn legal_lists_go_on()
    ensures { LegalListsGoOn }
{}
