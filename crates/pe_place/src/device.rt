//! An operation of a device.
ghost use Rattle.std.specs.Prelude.{◌&&◌, IsTrue};
ghost use Rattle.gic_msi.specs.Words.{has_interrupt, Wire as WireOp};
ghost use Rattle.gic_msi.specs.Core.{shape_of};
ghost use Rattle.gic_msi.specs.Calls.{has_wire, is_good_event};
ghost use Rattle.gic_msi.specs.DevPort.Device.{CanCall};
ghost use Rattle.pe_place.specs.Device.{DoesEvent};

use gic_msi::{AlreadySo, DeviceOp, Key, Port, Wire, message, send_msi, set_wire};
use std::sync::Wait;

/// The device moves a wire, which has the other level.
fn move_wire<P: Port>(port: &mut P, key: Key, up: bool)
    requires there { IsTrue (has_wire key && has_interrupt (shape_of (P.seen port.old)) key) }
    requires ready { CanCall (P.seen port.old) }
    ensures { DoesEvent (P.seen port.old) (P.seen port.new) (WireOp key up) }
{
    match set_wire(port, &mut Wire { key, up: !up }, up) {
        Ok(()) => {}
        Err(AlreadySo) => unreachable!(),
    }
}

/// A device does an operation: it makes an SPI pending by a message, moves the wire of an interrupt, which has the other level, or
/// sends a message to the ITS, through its translation line where that has it. It waits only where the message goes by the
/// ITS, while another actor has it. It takes no memory.
pub fn device_op<P: Port, R: Wait>(rt: &R, port: &mut P, op: &DeviceOp)
    requires ready { CanCall (P.seen port.old) }
    requires good { IsTrue (is_good_event (shape_of (P.seen port.old)) op.now) }
    ensures { DoesEvent (P.seen port.old) (P.seen port.new) op.now }
{
    match *op {
        DeviceOp::Message { spi } => message(port, spi),
        DeviceOp::Wire { key, up } => move_wire(port, key, up),
        DeviceOp::Msi { device, event } => send_msi(rt, port, device, event),
    }
}
