//! Which translation line a message has.
ghost use Rattle.std.specs.Prelude.{◌≡◌, ◌<◌};
ghost use Rattle.gic_msi.specs.Message.{line_of_message as line_in, has_message as has_it, is_short_message};

use dev_port::Line;

/// How many numbers of devices, and of events, a line can keep.
const SHORT: u32 = 1 << 16;
/// How many lines there are.
const LINES: u32 = 64;
/// By how many lines two neighbouring DeviceIDs of an EventID are apart.
const SPREAD: u32 = 31;

/// Whether a DeviceID and an EventID fit a translation line: both are below 65536.
pub fn is_short(device: u32, event: u32) -> bool
    ensures { result ≡ is_short_message device event }
{
    device < SHORT && event < SHORT
}

/// The translation line of the message of an EventID under a DeviceID, both below 65536: one of 64.
pub fn line_of_message(device: u32, event: u32) -> u32
    requires device { device < 65536 }
    requires event { event < 65536 }
    ensures value { result ≡ line_in device event }
    ensures there { result < 64 }
{
    (SPREAD * device + event) % LINES
}

/// Whether a line's word has a message.
pub(crate) fn has_message(word: u64, device: u32, event: u32) -> bool
    ensures { result ≡ has_it device event word }
{
    match Line::of(word).pair {
        Some(pair) => pair.0 == device && pair.1 == event,
        None => false,
    }
}
