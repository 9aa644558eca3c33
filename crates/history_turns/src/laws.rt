//! Laws of calls in progress.
ghost use Rattle.history_turns.specs.Laws.{CallsArePlaced, EnablingCallsAreExact, NotesGoOn, SignallingCallsAreExact};

/// A law of calls that set EnableLPIs of a vCPU: what such a call made is the call exactly where its events are so by what they
/// found and by the vCPUs that it noted, and it answers nothing; and so of what it may still become.
pub fn enabling_calls_are_exact()
    ensures { EnablingCallsAreExact }
{}

/// A law of calls of message-signalled interrupts: what such a call made is the call exactly where its events are so by what
/// they found, by the maps that it took and by whether it signalled, and it answers nothing; and so of what it may still become.
pub fn signalling_calls_are_exact()
    ensures { SignallingCallsAreExact }
{}

/// A law of each open call after moments of a guest: the LPI of a pending table to which it has come is the one that its own
/// events say. With `calls_are_open` this is what the calls of a history have that are judged here.
pub fn calls_are_placed()
    ensures { CallsArePlaced }
{}

/// A law of what a call notes of an LPI, whether it was for a vCPU and whether for another or for none: how it begins, and how it
/// goes on at each event of the call's own and at each of others, by the vCPU that the LPI is for then.
pub fn notes_go_on()
    ensures { NotesGoOn }
{}
