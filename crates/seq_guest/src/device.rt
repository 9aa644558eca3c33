//! An operation of a device of a guest.
ghost use Rattle.std.specs.Prelude.{◌≡◌, ◌+◌, ◌<◌, IsTrue, None};
ghost use Rattle.guest_end.specs.Calls.{Device, is_good_event};
ghost use Rattle.port_seq.specs.Ports.{told};
ghost use Rattle.pe_place.specs.Parts.{HaveCall};
ghost use Rattle.seq_guest.specs.Guest.{AreAt, GoesOn, NoneKicked, ChangesSpots, for_none};

use crate::vcpus::Vcpus;
use pe_place::device_op;
use port_seq::{CorePort as Port, DeviceOp, GuestPort};
use std::sync::Wait;

impl Vcpus {
    /// A device of the guest does an operation, and the kicks are answered that this gives.
    pub fn receive<R: Wait>(&mut self, rt: &R, port: &mut GuestPort, device: u32, op: &DeviceOp)
        requires at { AreAt (told port.old) self.old }
        requires there { device < (told port.old).guest.shape.devices }
        requires good { IsTrue (is_good_event (told port.old).guest.shape op.now) }
        ensures goes_on { GoesOn (HaveCall ((told port.old).guest.shape.vcpus + device) (Device op.now) None) (told port.old) (told port.new) self.old self.new }
        ensures spots { ChangesSpots for_none self.old self.new }
        ensures quiet { NoneKicked (told port.new) self.new }
    {
        port.set_actor(port.shape().vcpus + device);
        device_op(rt, port, op);
        self.answer_kicks(rt, port);
    }
}
