//! What the actors of a guest do, over ports that note it.
ghost use Rattle.std.specs.Prelude.{◌≡◌, IfSome};

use crate::moments::{device_form_of, form_of};
use crate::noting::{Notes, Noting};
use gic_msi::{CoreStep, DeviceOp, GuestOp, Key, Port, message, msi};
use pe_op::{enter, guest_op, leave};
use port_seq::{GuestShape, ItsTables, Local, is_good_op, key_of};
use std::alloc::Global;
use std::sync::Wait;
use vm_threads::{can_call, rest};

/// List registers of a PE: fewer than there are interrupts.
const LIST_REGISTERS: u32 = 2;

/// A device does what it does, but for moves of wires. Whether it may.
pub(crate) fn device_goes<P: Port, R: Wait>(
    rt: &R,
    alloc: Global,
    port: &mut Noting<P>,
    op: &DeviceOp,
) -> bool {
    if !can_call(port) {
        return false;
    }
    let shape = port.shape();
    let actor = port.actor();
    port.notes.begins(&shape, actor, device_form_of(alloc, op));
    match *op {
        DeviceOp::Message { spi } if key_of(spi, 0, &shape) == Some(Key::Spi(spi)) => {
            message(port, spi);
        }
        DeviceOp::Msi { device, event } => msi(rt, port, device, event),
        _ => return false,
    }
    port.notes.ends(&shape, actor, None);
    true
}

/// The port of a vCPU that notes what it does. Before one of its steps a device sends a message.
#[derive(Drop)]
pub(crate) struct Seat<'r, P, Q, R> {
    pub(crate) vcpu: Noting<P>,
    pub(crate) device: Noting<Q>,
    pub(crate) rt: &'r R,
    pub(crate) alloc: Global,
    /// After how many more steps, and the message.
    pub(crate) left: u32,
    pub(crate) sends: Option<DeviceOp>,
}

impl<P: Port, Q: Port, R: Wait> Seat<'_, P, Q, R> {
    /// The device sends its message, if it is to be sent now.
    fn interrupt(&mut self)
        ensures { self.new.vcpu.port ≡ self.old.vcpu.port }
    {
        let Some(op) = self.sends else {
            return;
        };
        if self.left > 0 {
            self.left -= 1;
            return;
        }
        self.sends = None;
        device_goes(self.rt, self.alloc, &mut self.device, &op);
        self.vcpu.notes.append(&mut self.device.notes);
    }
}

impl<P: Port, Q: Port, R: Wait> Port for Seat<'_, P, Q, R> {
    ghost seen = { λ seat. P.seen seat.vcpu.port };

    ghost is_port = { λ seat. P.is_port seat.vcpu.port };

    fn actor(&self) -> u32 {
        self.vcpu.actor()
    }

    fn shape(&self) -> GuestShape {
        self.vcpu.shape()
    }

    fn local(&self) -> Local {
        self.vcpu.local()
    }

    fn local_ref(&self) -> &Local {
        self.vcpu.local_ref()
    }

    fn step(&mut self, step: CoreStep) -> u64 {
        self.interrupt();
        self.vcpu.step(step)
    }

    fn take_tables(&mut self) -> ItsTables {
        self.vcpu.take_tables()
    }

    fn put_tables(&mut self, tables: ItsTables) {
        self.vcpu.put_tables(tables);
    }
}

/// A vCPU enters a PE, does an operation there, and leaves it. Whether it may.
pub(crate) fn vcpu_goes<P: Port, Q: Port, R: Wait>(
    rt: &R,
    alloc: Global,
    seat: &mut Seat<'_, P, Q, R>,
    op: &GuestOp,
) -> bool
    requires { (P.seen seat.old.vcpu.port).number ≡ 0 }
    ensures { (P.seen seat.new.vcpu.port).number ≡ 0 }
{
    let shape = seat.shape();
    let actor = seat.actor();
    let Some(vcpu) = rest(seat, 0) else {
        return false;
    };
    if !(shape.is_in_range() && is_good_op(&shape, op)) {
        return false;
    }
    let enters = String::from_str(alloc, "\"enter\":true");
    seat.vcpu.notes.begins(&shape, actor, enters);
    let mut loaded = enter(seat, vcpu, LIST_REGISTERS);
    seat.vcpu.notes.ends(&shape, actor, None);
    seat.vcpu.notes.begins(&shape, actor, form_of(alloc, op));
    let answer = guest_op(rt, seat, &mut loaded, op);
    seat.vcpu.notes.ends(&shape, actor, answer);
    let exits = String::from_str(alloc, "\"exit\":true");
    seat.vcpu.notes.begins(&shape, actor, exits);
    leave(seat, loaded);
    seat.vcpu.notes.ends(&shape, actor, None);
    true
}
