//! What holds of all that is saved.
ghost use Rattle.saved_take.specs.Back.{StatesTellBack, WiresTellBack, StandingTellsBack};

/// A law of every sound guest whose registers hold what writes can store in them: what is saved of it tells the guest again,
/// but for the number of a fault by which nothing is stalled.
pub fn states_tell_back()
    ensures { StatesTellBack }
{}

/// A law of every sound guest: what is saved of it tells who moved each wire, and its level.
pub fn wires_tell_back()
    ensures { WiresTellBack }
{}

/// A law of every scenario of which some steps were done: what is saved of it tells where its vCPUs stand and how its wires are
/// after them, so the rest of its steps is judged as in the whole.
pub fn standing_tells_back()
    ensures { StandingTellsBack }
{}
