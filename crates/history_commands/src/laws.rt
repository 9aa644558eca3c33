//! Laws of calls that take the ITS and its commands.
ghost use Rattle.history_commands.specs.Laws.{CommandsAreCounted, CommandsGoOn, ItsWritesAreExact, MapsGoOn};
ghost use Rattle.history_commands.specs.Opened.{ItsWritesMayGoOn};
ghost use Rattle.history_commands.specs.Taking.{TakingCallsBegin, TakingCallsEnd};

/// A law of writes of registers of the ITS that take it: what such a call made is the call exactly where its events are so, one
/// after the other, by what it read, by the maps that it took, and by the vCPUs that the LPIs were for as each of its commands
/// began; and it answers nothing.
pub fn its_writes_are_exact()
    ensures { ItsWritesAreExact }
{}

/// A law of what may still become such a write, by the same maps and vCPUs: some further events make it one exactly where no event
/// is named yet; or the ITS was taken first, and what follows is the beginning of the register's part in some guest, or all of it
/// and then commands up to any event.
pub fn its_writes_may_go_on()
    ensures { ItsWritesMayGoOn }
{}

/// A law of the calls of a course that are such writes: one is over exactly where it is made so, by the maps that it took and by the
/// vCPUs that the LPIs were for as each of its commands began.
pub fn taking_calls_end()
    ensures { TakingCallsEnd }
{}

/// A law of the same calls: one can still become such a write exactly where it is begun so, by what it took and noted till then.
pub fn taking_calls_begin()
    ensures { TakingCallsBegin }
{}

/// A law of each open call after moments of a guest: as many of its commands have begun as its own events say.
pub fn commands_are_counted()
    ensures { CommandsAreCounted }
{}

/// A law of what a call notes as its commands begin, for which vCPUs the LPIs are then: it begins with none, and notes them at each
/// event of its own with which a command begins.
pub fn commands_go_on()
    ensures { CommandsGoOn }
{}

/// A law of what an ITS has mapped: what the commands did that were done so far, one after the other; and of what a call notes of
/// it, as it takes the ITS.
pub fn maps_go_on()
    ensures { MapsGoOn }
{}
