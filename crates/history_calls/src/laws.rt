//! Laws of calls in progress.
ghost use Rattle.history_calls.specs.Exact.{CallsAreOpen, PlainCallsAreExact};

/// A law of calls that neither take the ITS nor set EnableLPIs: what such a call made is the call exactly where its named
/// events are the operation's by the view that they found, each handed out what that has, its places were read so, and the
/// answer is what the access reads; and it can still become the call exactly where its named events are the first
/// ones of those.
pub fn plain_calls_are_exact()
    ensures { PlainCallsAreExact }
{}

/// A law of each open call after moments of a guest: of each LPI it noted a vCPU, or that it is for none, and it has come to no
/// LPI of a pending table unless it stored EnableLPIs.
pub fn calls_are_open()
    ensures { CallsAreOpen }
{}
