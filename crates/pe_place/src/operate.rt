//! An operation of a vCPU that is on a PE.
ghost use Rattle.std.specs.Prelude.{◌≡◌, ℕ, IsTrue};
ghost use Rattle.gic_msi.specs.Calls.{Access, is_good_op};
ghost use Rattle.gic_msi.specs.Core.{shape_of};
ghost use Rattle.pe_place.specs.Parts.{AreOneCall};
ghost use Rattle.pe_place.specs.Place.{pe, spot_of, IsAt, HasRegisters};
ghost use Rattle.pe_place.specs.Moves.{Moves};

use crate::place::Place;
use gic_msi::{GuestOp, Port};
use pe_op::guest_op;
use std::sync::Wait;

/// The vCPU, which is on a PE, does an operation: what it reads.
pub fn operate_on<P: Port, R: Wait>(
    rt: &R,
    port: &mut P,
    place: &mut Place,
    op: &GuestOp,
) -> Option<u64>
    requires at { IsAt (P.seen port.old) place.old }
    requires on { spot_of place.old ≡ pe }
    requires good { IsTrue (is_good_op (shape_of (P.seen port.old)) op.now) }
    ensures moves { Moves (AreOneCall (P.seen port.old).actor (Access op.now) result) (P.seen port.old) (P.seen port.new) place.old place.new }
    ensures spot { spot_of place.new ≡ spot_of place.old }
    ensures registers { (lrs : ℕ) → HasRegisters lrs place.old → HasRegisters lrs place.new }
{
    match place {
        Place::Pe(vcpu) => guest_op(rt, port, vcpu, op),
        Place::Shelf(_) | Place::Aside(_) => unreachable!(),
    }
}
