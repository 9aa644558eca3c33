//! A message-signalled interrupt, which the ITS makes an LPI.
ghost use Rattle.std.specs.Prelude.{◌≡◌, ◌%◌, ◌^◌, IsTrue, IfSome, false};
ghost use Rattle.its_exec.specs.Words.{has_interrupt, Lpi};
ghost use Rattle.its_exec.specs.Core.{owes_no_mark, shape_of};
ghost use Rattle.dev_port.specs.Device.{CanCall, Translates, TellsLpi, SendsMsi};

use its_exec::{Key, PlainWord, Port, enabled_in, give_turn, raise, read_plain, take_turn};
use std::sync::Wait;

/// The low half of a value, which has all of GITS_CTLR.
fn low(value: u64) -> u32
    ensures { result ≡ value % 2 ^ 32 }
{
    (value % (1 << 32)) as u32
}

/// The LPI that a message becomes, by the actor that has the ITS and has not taken its tables: it looks at GITS_CTLR, takes
/// the tables, and puts them back.
pub fn translate<P: Port>(port: &mut P, device: u32, event: u32) -> Option<u32>
    requires turn { IsTrue (P.seen port.old).local.turn }
    requires home { (P.seen port.old).taken ≡ false }
    ensures { Translates (P.seen port.old) (P.seen port.new) device event result }
{
    let enabled = enabled_in(low(read_plain(port, PlainWord::ItsCtlr)));
    let tables = port.take_tables();
    let id = tables.translated(enabled, device, event);
    port.put_tables(tables);
    id
}

/// Raises an LPI of the guest, if there is one, by an actor that owes no mark.
pub fn raise_lpi<P: Port>(port: &mut P, id: Option<u32>)
    requires there { IfSome id (λ id. IsTrue (has_interrupt (shape_of (P.seen port.old)) (Lpi id))) }
    requires marks { IsTrue (owes_no_mark (P.seen port.old).local) }
    ensures { TellsLpi (P.seen port.old) (P.seen port.new) id }
{
    if let Some(id) = id {
        raise(port, Key::Lpi(id));
    }
}

/// Sends a message of an EventID under a DeviceID to the ITS, as a write of GITS_TRANSLATER does. The ITS makes the LPI
/// pending that its tables have for it, and tells the vCPUs that it concerns before the ITS is given back; a message that it
/// does not translate, as while it is disabled, changes nothing. It waits until nobody has the ITS. The device owes
/// nothing. It takes no memory.
pub fn msi<P: Port, R: Wait>(rt: &R, port: &mut P, device: u32, event: u32)
    requires { CanCall (P.seen port.old) }
    ensures { SendsMsi (P.seen port.old) (P.seen port.new) device event }
{
    take_turn(rt, port);
    let id = translate(port, device, event);
    raise_lpi(port, id);
    give_turn(port);
}
