//! An operation of a vCPU of a guest.
ghost use Rattle.std.specs.Prelude.{◌≡◌, ◌≢◌, ℕ, ◌<◌, IsTrue};
ghost use Rattle.guest_end.specs.Calls.{Access, is_good_op};
ghost use Rattle.pe_place.specs.Core.{shape_of};
ghost use Rattle.port_seq.specs.Ports.{told};
ghost use Rattle.seq_guest.specs.Operation.{is_of_registers as is_of_registers_by};
ghost use Rattle.pe_place.specs.Parts.{AreOneCall};
ghost use Rattle.pe_place.specs.Place.{aside, pe, spot_of, returned, IsAt, HasRegisters};
ghost use Rattle.pe_place.specs.Moves.{Moves};
ghost use Rattle.seq_guest.specs.Guest.{AreAt, GoesOn, MakesWay, Operates, NoneKicked, spot_at, ChangesSpots, for_none};

use crate::vcpus::Vcpus;
use pe_place::operate_on;
use port_seq::{CorePort as Port, Frame, GuestOp, GuestPort};
use std::sync::Wait;

/// Whether an operation accesses a register of the distributor, of a redistributor or of the ITS: one that may be of interrupts
/// that other vCPUs have at their interfaces.
fn is_of_registers(op: &GuestOp) -> bool
    ensures { result ≡ is_of_registers_by op.now }
{
    match op {
        GuestOp::Icc { .. } => false,
        GuestOp::Mem { frame, .. } => match frame {
            Frame::Dist | Frame::Redist { .. } | Frame::Its => true,
            Frame::Ram => false,
        },
    }
}

impl Vcpus {
    /// A vCPU that is on a PE does an operation.
    fn operate_one<R: Wait>(
        &mut self,
        rt: &R,
        port: &mut GuestPort,
        vcpu: u32,
        op: &GuestOp,
    ) -> Option<u64>
        requires at { AreAt (told port.old) self.old }
        requires there { vcpu < (told port.old).guest.shape.vcpus }
        requires on { spot_at self.old vcpu ≡ pe }
        requires good { IsTrue (is_good_op (told port.old).guest.shape op.now) }
        ensures goes_on { GoesOn (AreOneCall vcpu (Access op.now) result) (told port.old) (told port.new) self.old self.new }
        ensures spots { ChangesSpots for_none self.old self.new }
    {
        port.set_actor(vcpu);
        operate_on(rt, port, &mut self.places[vcpu as usize], op)
    }

    /// Where an operation accesses a register over interrupts, each vCPU that is on a PE leaves it for a while, but for the one
    /// that does the operation; before any other operation nothing is done.
    fn make_way(&mut self, port: &mut GuestPort, vcpu: u32, op: &GuestOp)
        requires { AreAt (told port.old) self.old }
        ensures way { MakesWay (told port.old) (told port.new) self.old self.new vcpu op.now }
        ensures own { spot_at self.new vcpu ≡ spot_at self.old vcpu }
        ensures back { (other : ℕ) → spot_at self.old other ≢ aside → returned (spot_at self.new other) ≡ spot_at self.old other }
    {
        if is_of_registers(op) {
            self.step_aside(port, vcpu);
        }
    }

    /// A vCPU that is on a PE does an operation, and no other vCPU is on one while that accesses a register over interrupts.
    pub fn operate<R: Wait>(
        &mut self,
        rt: &R,
        port: &mut GuestPort,
        vcpu: u32,
        op: &GuestOp,
    ) -> Option<u64>
        requires at { AreAt (told port.old) self.old }
        requires there { vcpu < (told port.old).guest.shape.vcpus }
        requires on { spot_at self.old vcpu ≡ pe }
        requires none { (other : ℕ) → spot_at self.old other ≢ aside }
        requires good { IsTrue (is_good_op (told port.old).guest.shape op.now) }
        ensures operates { Operates (told port.old) (told port.new) self.old self.new vcpu op.now result }
        ensures spots { ChangesSpots for_none self.old self.new }
        ensures quiet { NoneKicked (told port.new) self.new }
    {
        self.make_way(port, vcpu, op);
        let answer = self.operate_one(rt, port, vcpu, op);
        self.come_back(port);
        self.answer_kicks(rt, port);
        answer
    }
}
