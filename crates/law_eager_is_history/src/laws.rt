//! Laws of the eager controller.
ghost use Rattle.law_eager_is_history.specs.Laws.{EagerIsAHistory, EagerIsPossible};

/// A law of the eager controller: the steps of a scenario without a fault are, for each of its guests, a fresh history from
/// the guest's opening, in which an interrupt gets to a CPU interface just before each access that uses it and leaves just
/// after. All calls end; each actor makes its operations in order, with the answers of the eager controller; and the last
/// state, with all that is at an interface taken back, is the guest in which the eager controller ends.
pub fn eager_is_a_history()
    ensures { EagerIsAHistory }
{}

/// A law of the eager controller: what it answers for a scenario without a fault is possible.
pub fn eager_is_possible()
    ensures { EagerIsPossible }
{}
