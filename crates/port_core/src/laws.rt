//! Laws of every run.
ghost use Rattle.port_core.specs.Port.{PartsJoin};
ghost use Rattle.port_core.specs.Laws.{OpeningIsSound, StepsKeepSound, RunsAreSound, RunsJoin};

/// A law of every guest that can open: it opens with valid words, and with actors that agree with them.
pub fn opening_is_sound()
    ensures { OpeningIsSound }
{}

/// A law of every step: it keeps words and actors valid.
pub fn steps_keep_sound()
    ensures { StepsKeepSound }
{}

/// A law of every run from the opening: words and actors stay valid.
pub fn runs_are_sound()
    ensures { RunsAreSound }
{}

/// A law of every run: one and another from where it ends are one.
pub fn runs_join()
    ensures { RunsJoin }
{}

/// A law of every actor's list: two parts, one after the other, are one, and stand for the events of both.
pub fn parts_join()
    ensures { PartsJoin }
{}
