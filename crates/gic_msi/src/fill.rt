//! A message that the ITS translates, and its translation line, which is filled with it.
ghost use Rattle.std.specs.Prelude.{◌<◌, IfSome};
ghost use Rattle.dev_port.specs.Core.{shape_of};
ghost use Rattle.dev_port.specs.Device.{CanCall};
ghost use Rattle.gic_msi.specs.Fill.{SendsAndFills};
ghost use Rattle.gic_msi.specs.Filling.{CanFillLine, FillsLine, TellsIfShort};

use crate::line::{has_message, is_short, line_of_message};
use dev_port::{CoreStep, Line, Port, WordId, give_turn, raise_lpi, take_turn, translate};
use std::sync::Wait;

/// Fills the line of a message with it, by the actor that has the ITS and has translated the message: where the line has the
/// message already it is left as it is, and where a device is in the line it is only emptied.
fn fill_line<P: Port>(port: &mut P, device: u32, event: u32, lpi: u32)
    requires device { device < 65536 }
    requires event { event < 65536 }
    requires can { CanFillLine (P.seen port.old) device event lpi }
    ensures { FillsLine (P.seen port.old) (P.seen port.new) device event lpi }
{
    let line = line_of_message(device, event);
    let word = port.step(CoreStep::Look {
        word: WordId::Line(line),
    });
    if has_message(word, device, event) {
        return;
    }
    let closed = port.step(CoreStep::LineClose { line });
    if Line::of(closed).inside != 0 {
        return;
    }
    port.step(CoreStep::LineFill {
        line,
        device,
        event,
        lpi,
    });
}

/// Fills the line of a message that became an LPI, if it did and fits a line.
fn fill_if_short<P: Port>(port: &mut P, device: u32, event: u32, id: Option<u32>)
    requires can { IfSome id (λ lpi. CanFillLine (P.seen port.old) device event lpi) }
    ensures { TellsIfShort (P.seen port.old) (P.seen port.new) device event id }
{
    if let Some(lpi) = id {
        if is_short(device, event) {
            fill_line(port, device, event, lpi);
        }
    }
}

/// Sends a message of an EventID under a DeviceID to the ITS as `dev_port::msi` does, and fills the message's translation line
/// before the ITS is given back, so that later ones of the message can be sent by `post`: where the message becomes an LPI
/// and both numbers are below 65536, the line is emptied, and where no device is in it then, it gets the message. A line
/// that has the message stays as it is. It waits until nobody has the ITS. The device owes nothing. It takes no memory.
pub fn msi_fill<P: Port, R: Wait>(rt: &R, port: &mut P, device: u32, event: u32)
    requires { CanCall (P.seen port.old) }
    ensures { SendsAndFills (P.seen port.old) (P.seen port.new) device event }
{
    take_turn(rt, port);
    let id = translate(port, device, event);
    raise_lpi(port, id);
    fill_if_short(port, device, event, id);
    give_turn(port);
}
