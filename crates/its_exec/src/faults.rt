//! The fault of a command.
ghost use Rattle.std.specs.Prelude.{◌≡◌, Err, Ok};
ghost use Rattle.std.specs.Option.{option_map_or};
ghost use Rattle.port_call.specs.Words.{IsShape};
ghost use Rattle.port_call.specs.Registers.{fault_of};

use port_call::{CmdFault, Command, GuestShape, ItsTables};

/// Whether a command can be carried out with these tables, in a guest of this shape. Err exactly where it has a fault:
/// the first by number.
pub fn check(tables: &ItsTables, command: &Command, shape: &GuestShape) -> Result<(), CmdFault>
    requires { IsShape shape.now }
    ensures { result ≡ option_map_or (λ fault. Err fault) (fault_of shape.now tables.now command.now) (Ok tt) }
{
    match tables.fault_in(command, shape) {
        Some(fault) => Err(fault),
        None => Ok(()),
    }
}
