//! Laws of the text of a run in two parts.
ghost use Rattle.law_saves_go_on.specs.Alike.{AlikeAreSavedAlike};
ghost use Rattle.law_saves_go_on.specs.GoOn.{SaveThenResume};
ghost use Rattle.law_saves_go_on.specs.Resume.{SavedThenResumed};
ghost use Rattle.law_saves_go_on.specs.Stored.{StatesHoldOwnBits};

/// A law of every scenario and every number of its steps: the lines of so many steps, and then the text of the rest from the states
/// that were reached, are the text of the whole run. The states may differ from those in the number of a fault by which nothing
/// is stalled.
pub fn save_then_resume()
    ensures { SaveThenResume }
{}

/// A law of every scenario without a fault and every number of its steps: the lines of so many steps, and then the text of what is
/// saved after them, resumed from what it tells, are the text of the whole run.
pub fn saved_then_resumed()
    ensures { SavedThenResumed }
{}

/// A law of the ideal controller: in each state that guests reach, each register that is only stored has bits alone that it stores,
/// and a guest without LPIs has nothing in its ITS.
pub fn states_hold_own_bits()
    ensures { StatesHoldOwnBits }
{}

/// A law of every guest: of states that differ in the number of a fault by which nothing is stalled, and in nothing else, the same is
/// saved.
pub fn alike_are_saved_alike()
    ensures { AlikeAreSavedAlike }
{}
