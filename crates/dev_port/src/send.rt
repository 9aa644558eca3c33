//! A message that makes an SPI pending.
ghost use Rattle.std.specs.Prelude.{IsTrue};
ghost use Rattle.its_exec.specs.Words.{has_interrupt, Spi, Message};
ghost use Rattle.its_exec.specs.Core.{shape_of, Raise};
ghost use Rattle.dev_port.specs.Device.{CanCall, Changes};

use its_exec::{Key, Port, raise};

/// Makes the SPI of an INTID pending, as a write of GICD_SETSPI_NSR does, and tells the vCPUs that it concerns before it
/// returns. The guest has the SPI, and the device owes nothing. It takes no memory.
pub fn message<P: Port>(port: &mut P, spi: u32)
    requires there { IsTrue (has_interrupt (shape_of (P.seen port.old)) (Spi spi)) }
    requires ready { CanCall (P.seen port.old) }
    ensures { Changes (P.seen port.old) (P.seen port.new) (Message spi) (Raise (Spi spi)) (Spi spi) }
{
    raise(port, Key::Spi(spi));
}
