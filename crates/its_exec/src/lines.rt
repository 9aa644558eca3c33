//! The translation lines of the ITS are shut.
ghost use Rattle.std.specs.Prelude.{◌≡◌, ◌<◌, IsTrue, true};
ghost use Rattle.port_call.specs.Core.{line_count, shape_of};
ghost use Rattle.port_call.specs.Registers.{has_lpis};
ghost use Rattle.its_exec.specs.Shut.{LooksAtLine, ShutsAll, ShutsLine};

use port_call::{CoreStep, Line, Port, WordId, line_count};
use std::sync::Wait;

/// Looks at a translation line. Whether it has neither a message nor a device.
fn finds_empty<P: Port>(port: &mut P, line: u32) -> bool
    requires turn { IsTrue (P.seen port.old).local.turn }
    requires there { line < line_count (shape_of (P.seen port.old)) }
    ensures { LooksAtLine (P.seen port.old) (P.seen port.new) line result }
{
    let word = port.step(CoreStep::Look {
        word: WordId::Line(line),
    });
    Line::of(word).is_empty()
}

/// Takes the message out of a translation line, and looks at the line until no device is in it.
fn shut_line<P: Port, R: Wait>(rt: &R, port: &mut P, line: u32)
    requires turn { IsTrue (P.seen port.old).local.turn }
    requires there { line < line_count (shape_of (P.seen port.old)) }
    ensures { ShutsLine (P.seen port.old) (P.seen port.new) line }
{
    let closed = port.step(CoreStep::LineClose { line });
    if Line::of(closed).inside == 0 {
        return;
    }
    for _ in rt.forever() {
        if finds_empty(port, line) {
            return;
        }
    }
    unreachable!()
}

/// Shuts all translation lines, by the actor that has the ITS, in a guest with LPIs: it takes their messages out of them, and
/// waits until no device is in one of them. A message that comes later finds none until a line is filled again.
pub fn shut<P: Port, R: Wait>(rt: &R, port: &mut P)
    requires lpis { has_lpis (shape_of (P.seen port.old)) ≡ true }
    requires turn { IsTrue (P.seen port.old).local.turn }
    ensures { ShutsAll (P.seen port.old) (P.seen port.new) }
{
    for line in 0..line_count(&port.shape()) {
        shut_line(rt, port, line);
    }
}
