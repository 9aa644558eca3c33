//! A message that its translation line has.
ghost use Rattle.std.specs.Prelude.{◌≡◌, ◌<◌, ◌==◌, IsTrue, true, false, if◌then◌else◌};
ghost use Rattle.dev_port.specs.Registers.{has_lpis};
ghost use Rattle.dev_port.specs.Core.{shape_of};
ghost use Rattle.dev_port.specs.Device.{CanCall};
ghost use Rattle.gic_msi.specs.Post.{PostsAs};

use crate::line::{has_message, line_of_message};
use dev_port::{CoreStep, Key, Line, Port, WordId, raise};

/// Why a message was not sent through its translation line; each with the line's word.
#[derive(Clone, Copy, Debug, PartialEq, Eq)]
pub enum MsiMiss {
    /// The line does not have the message.
    NoLine { found: u64 },
    /// The line had the message, and its word was changed before the device entered it.
    Changed { found: u64 },
}

/// Sends a message of an EventID under a DeviceID to the ITS through its translation line, as a write of GITS_TRANSLATER does
/// that the ITS has translated before: the device enters the line, makes the line's LPI pending, tells the vCPUs that this
/// concerns, and leaves the line. It takes no memory, does not wait, and does not take the ITS.
///
/// `NoLine` exactly where the line does not have the message, `Changed` exactly where the line's word was another one than
/// the one looked at when the device was to enter it; after both no word has changed. Both numbers are below 65536, the
/// guest has LPIs, and the device owes nothing.
pub fn post<P: Port>(port: &mut P, device: u32, event: u32) -> Result<(), MsiMiss>
    requires lpis { has_lpis (shape_of (P.seen port.old)) ≡ true }
    requires device { device < 65536 }
    requires event { event < 65536 }
    requires ready { CanCall (P.seen port.old) }
    ensures { PostsAs (P.seen port.old) (P.seen port.new) device event result }
{
    let line = line_of_message(device, event);
    let seen = port.step(CoreStep::Look {
        word: WordId::Line(line),
    });
    if !has_message(seen, device, event) {
        return Err(MsiMiss::NoLine { found: seen });
    }
    let found = port.step(CoreStep::LineEnter { line, seen });
    if found != seen {
        return Err(MsiMiss::Changed { found });
    }
    raise(port, Key::Lpi(Line::of(seen).lpi));
    port.step(CoreStep::LineLeave { line });
    Ok(())
}
