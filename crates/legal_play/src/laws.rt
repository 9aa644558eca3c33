//! Laws of what the program knows of calls.
ghost use Rattle.legal_play.specs.Laws.{CallsAreFollowed, PartsAreAll};

/// A law of each moment of a course: what is noted of its calls before it, what each is for and which events it made, and noted of it, is
/// of its calls after it.
pub fn calls_are_followed()
    ensures { CallsAreFollowed }
{}

/// A law of each moment after those of which a board knows: it goes on with a legal list exactly where it may come, is fresh at the interface, at an end of
/// interrupt and at the end of a call, leaves no interrupt waiting that nobody may answer, and where its actor's call is right as it ends, and else
/// can still become its call. `Board` and `may_all_be_answered` decide all but what is said of calls.
pub fn parts_are_all()
    ensures { PartsAreAll }
{}
