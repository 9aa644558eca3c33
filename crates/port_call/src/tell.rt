//! An interrupt becomes pending, and the vCPUs that this concerns are told.
ghost use Rattle.std.specs.Prelude.{IsTrue};
ghost use Rattle.floor_core.specs.Words.{has_interrupt};
ghost use Rattle.floor_core.specs.GicCall.declared.event.Event.TheVariants.{Raise as RaiseEvent};
ghost use Rattle.floor_core.specs.Core.{Raise, owes_no_mark, shape_of};
ghost use Rattle.port_call.specs.Tell.{Tells};

use crate::send::settle;
use floor_core::{CoreStep, Key, Port};

/// Makes an interrupt of the guest pending, and marks and kicks the vCPUs that this concerns before it returns: its
/// target, and the one that holds it, or where nobody does the one by which it is active. The actor owes no mark.
pub fn raise<P: Port>(port: &mut P, key: Key)
    requires there { IsTrue (has_interrupt (shape_of (P.seen port.old)) key) }
    requires marks { IsTrue (owes_no_mark (P.seen port.old).local) }
    ensures { Tells (P.seen port.old) (P.seen port.new) (Raise key) key (RaiseEvent key) }
{
    port.step(CoreStep::Raise { key });
    settle(port);
}
