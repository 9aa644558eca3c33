//! What holds of each state that can have been saved.
ghost use Rattle.saved_guest.specs.Whole.{ValidStatesCanOpen};

/// A law of every valid state of a good guest: it is one in which the guest can open, and so one from which a run can go on.
pub fn valid_states_can_open()
    ensures { ValidStatesCanOpen }
{}
