//! A message to the ITS, whichever way it goes.
ghost use Rattle.std.specs.Prelude.{◌≡◌, true};
ghost use Rattle.dev_port.specs.Registers.{has_lpis};
ghost use Rattle.dev_port.specs.Core.{shape_of};
ghost use Rattle.dev_port.specs.Device.{CanCall};
ghost use Rattle.gic_msi.specs.Send.{SendsMessage};

use crate::fill::msi_fill;
use crate::line::is_short;
use crate::posts::post;
use dev_port::{Port, msi};
use std::sync::Wait;

/// Sends a message of an EventID under a DeviceID to the ITS, as a write of GITS_TRANSLATER does: through its translation line,
/// or where the line does not have it by the ITS itself, which fills the line; and where a number is 65536 or more, by the
/// ITS alone. It waits only where it takes the ITS, until nobody has it. The guest has LPIs, and the device owes nothing.
/// It takes no memory.
pub fn send_msi<P: Port, R: Wait>(rt: &R, port: &mut P, device: u32, event: u32)
    requires lpis { has_lpis (shape_of (P.seen port.old)) ≡ true }
    requires ready { CanCall (P.seen port.old) }
    ensures { SendsMessage (P.seen port.old) (P.seen port.new) device event }
{
    if !is_short(device, event) {
        msi(rt, port, device, event);
        return;
    }
    match post(port, device, event) {
        Ok(()) => {}
        Err(_) => msi_fill(rt, port, device, event),
    }
}
