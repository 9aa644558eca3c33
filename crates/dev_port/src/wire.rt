//! The wire of an interrupt.
ghost use Rattle.std.specs.Prelude.{◌≡◌, ◌&&◌, IsTrue, IfOk, IfErr, if◌then◌else◌};
ghost use Rattle.its_exec.specs.Words.{has_interrupt, Wire as WireOp};
ghost use Rattle.its_exec.specs.Calls.{has_wire};
ghost use Rattle.its_exec.specs.Core.{shape_of};
ghost use Rattle.dev_port.specs.Device.{CanCall, Changes, has_level, wire_step};

use its_exec::{CoreStep, Key, Port, settle};

/// The wire of an SPI or a PPI, with its level.
#[derive(Clone, Copy, Debug, PartialEq, Eq, Hash)]
pub struct Wire {
    pub key: Key,
    pub up: bool,
}

/// The wire has that level.
#[derive(Clone, Copy, Debug, PartialEq, Eq, Hash)]
pub struct AlreadySo;

/// Moves a wire to a level, and tells the vCPUs that its interrupt concerns before it returns. AlreadySo exactly where
/// the wire has that level; then nothing changes. The wire's interrupt is an SPI or a PPI of the guest, and the device
/// owes nothing. It takes no memory.
pub fn set_wire<P: Port>(port: &mut P, wire: &mut Wire, up: bool) -> Result<(), AlreadySo>
    requires there { IsTrue (has_wire wire.old.key && has_interrupt (shape_of (P.seen port.old)) wire.old.key) }
    requires ready { CanCall (P.seen port.old) }
    ensures result { result ≡ (if has_level wire.old up then Err (record {}) else Ok tt) }
    ensures wire { wire.new ≡ record wire.old { up = up } }
    ensures unchanged { IfErr result (λ so. P.seen port.new ≡ P.seen port.old) }
    ensures changed { IfOk result (λ done. Changes (P.seen port.old) (P.seen port.new) (WireOp wire.old.key up) (wire_step wire.old.key up) wire.old.key) }
{
    if wire.up == up {
        return Err(AlreadySo);
    }
    let key = wire.key;
    port.step(if up {
        CoreStep::WireUp { key }
    } else {
        CoreStep::WireDown { key }
    });
    settle(port);
    wire.up = up;
    Ok(())
}
