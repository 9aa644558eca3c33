//! Accesses of the parts of interrupts in a register: of which interrupt each is, and what it does to that.
ghost use Rattle.std.specs.Prelude.{◌≡◌, ◌*◌, ◌≤◌, ◌+◌, IsTrue, IfSome};
ghost use Rattle.floor_registers.specs.Words.{IsShape, has_interrupt, GuestShape, Key};
ghost use Rattle.floor_registers.specs.Registers.{part_bits, has_part as has_part_in};
ghost use Rattle.gic_call.specs.Touch.{CanTouch};
ghost use Rattle.gic_call.specs.Access.{part_key as part_key_in, part_touch as part_touch_of};

use crate::touch::Touching;
use floor_registers::{Frame, GuestShape, Key, Kind, key_of, part_in};

/// The interrupt with an INTID that has its part of a register of a kind in a frame: in the distributor an SPI, in a
/// redistributor a private interrupt of its vCPU. None where the guest has no such interrupt, or it has no such part.
pub fn part_key(frame: Frame, kind: Kind, id: u32, shape: &GuestShape) -> Option<Key>
    requires { IsShape shape.now }
    ensures value { result ≡ part_key_in shape.now frame kind id }
    ensures there { IfSome result (λ key. IsTrue (has_interrupt shape.now key)) }
    ensures part { IfSome result (λ key. IsTrue (has_part_in kind key)) }
{
    let (key, vcpu) = match frame {
        Frame::Dist => (Key::Spi(id), 0),
        Frame::Redist { vcpu } if kind != Kind::Routing => (Key::Private { vcpu, id }, vcpu),
        _ => return None,
    };
    key_of(id, vcpu, shape).filter(|found| *found == key)
}

/// What an access of registers that have a part for each interrupt does to the interrupt of the part of this number, which
/// is within 64 bits: a read, or a write of its part of the value.
#[tactic(auto, using(crate::proofs::AccessLemmas::can_read, crate::proofs::AccessLemmas::can_write))]
pub fn part_touch(kind: Kind, write: Option<u64>, number: u32) -> Touching
    requires { number * part_bits kind + part_bits kind ≤ 64 }
    ensures value { result ≡ part_touch_of kind write number }
    ensures can { (shape : GuestShape) (key : Key) → IsTrue (has_interrupt shape key) → IsTrue (has_part_in kind key) → CanTouch shape key result }
{
    match write {
        None => Touching::Read { kind },
        Some(value) => Touching::Register {
            kind,
            value: part_in(kind, value, number),
        },
    }
}
