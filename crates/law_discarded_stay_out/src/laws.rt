//! Laws of messages that no translation line has.
ghost use Rattle.law_discarded_stay_out.specs.Fills.{FillsStore};
ghost use Rattle.law_discarded_stay_out.specs.StayOut.{DiscardedStayOut, LinesAreFilledAnew};
ghost use Rattle.law_discarded_stay_out.specs.Worked.{WorkedDiscard};
ghost use Rattle.law_discarded_stay_out.specs.WorkedPost.{WorkedPost};

/// A law of every run of a good guest's actors from its opening, in whatever order their steps come: once a command of the
/// ITS has ended, a register's write has moved its queue, or GITS_CTLR was stored, each translation line's message, and the
/// message with which a device is in one, was stored in a line since.
pub fn lines_are_filled_anew()
    ensures { LinesAreFilledAnew }
{}

/// A law of every run of a good guest's actors from its opening, in whatever order their steps come: once a DISCARD of a
/// message's event has ended, or a MAPD of its device, a device that looks for the message in a translation line finds
/// another one or none there, none gets into a line with it, and none that is in a line raises for it, until a step stores
/// the message in a line; and none does before a MAPTI or a MAPI of its event has ended.
pub fn discarded_stay_out()
    ensures { DiscardedStayOut }
{}

/// A law of every run of a good guest's actors from its opening, in whatever order their steps come: a step that fills a
/// translation line which its actor knows to be shut, as it does once it closed the line with no device in it, finds the line
/// empty, and stores the message there.
pub fn fills_store()
    ensures { FillsStore }
{}

/// A worked run meets what the laws ask of a run: a device stores a message in a line and posts it, a vCPU discards its
/// event, and the device does not find it any more.
pub fn worked_run_discards()
    ensures { WorkedDiscard }
{}

/// The post of that run is, over a port, the part of its message, and of no other message of the line; with the device gone
/// from the line before it raises the LPI it is none.
pub fn worked_post_is_its_message()
    ensures { WorkedPost }
{}
