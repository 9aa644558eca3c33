//! Laws of guests that share nothing.
ghost use Rattle.port_table.specs.Laws.{GuestsApart};

/// A law of all guests: no step of one changes a word or an actor of another.
pub fn guests_apart()
    ensures { GuestsApart }
{}
