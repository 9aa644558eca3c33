//! One part of a command.
ghost use Rattle.std.specs.Prelude.{◌<◌, IsTrue, IfSome};
ghost use Rattle.port_call.specs.Words.{has_interrupt, Lpi};
ghost use Rattle.port_call.specs.Calls.{Map};
ghost use Rattle.port_call.specs.GicCall.declared.command.Part.TheVariants.{Configure};
ghost use Rattle.port_call.specs.Core.{shape_of};
ghost use Rattle.port_call.specs.Rest.{IsAtEase};
ghost use Rattle.its_exec.specs.Config.{HoldsCommand};
ghost use Rattle.its_exec.specs.Parts.{is_part_of, LooksAtTarget, DoesPart};
ghost use Rattle.its_exec.specs.Plan.{DoesSome};

use crate::config::byte_for;
use crate::fetch::Fetched;
use port_call::{
    CallPart as Part, CallTouching as Touching, CoreStep, Key, Kind, Port, WordId, config_of,
    irq_unpack as unpack, raise, target_in, touch,
};
use std::sync::Wait;

/// A write of 1 to an interrupt's part of ICPENDR.
const CLEAR: Touching = Touching::Register {
    kind: Kind::ClearPending,
    value: 1,
};

/// The vCPU that an LPI of the guest is for, by a look at its word. The actor owes nothing.
pub(crate) fn look_at_target<P: Port>(port: &mut P, lpi: u32) -> Option<u32>
    requires there { IsTrue (has_interrupt (shape_of (P.seen port.old)) (Lpi lpi)) }
    requires ease { IsAtEase (P.seen port.old).local }
    ensures { LooksAtTarget (P.seen port.old) (P.seen port.new) lpi result }
{
    let word = port.step(CoreStep::Look {
        word: WordId::Irq(Key::Lpi(lpi)),
    });
    target_in(unpack(word).unwrap().route, &port.shape())
}

/// An event is mapped to an LPI for a vCPU, whose configuration is read there.
fn map<P: Port, R: Wait>(rt: &R, port: &mut P, fetched: &Fetched, lpi: u32, target: u32)
    requires part { IsTrue (is_part_of (shape_of (P.seen port.old)) (Map lpi target)) }
    requires ease { IsAtEase (P.seen port.old).local }
    requires holds { HoldsCommand (P.seen port.old) fetched.now }
    ensures { DoesPart (P.seen port.old) (P.seen port.new) fetched.now.address (Map lpi target) }
{
    let (enabled, prio) = config_of(byte_for(port, fetched, Some(target), lpi));
    touch(
        rt,
        port,
        Key::Lpi(lpi),
        Touching::MapLpi {
            target,
            enabled,
            prio,
        },
    );
}

/// An LPI's configuration is read: from the table of the vCPU that it is for, or 0 where it is for none.
fn configure<P: Port, R: Wait>(rt: &R, port: &mut P, fetched: &Fetched, lpi: u32)
    requires part { IsTrue (is_part_of (shape_of (P.seen port.old)) (Configure lpi)) }
    requires ease { IsAtEase (P.seen port.old).local }
    requires holds { HoldsCommand (P.seen port.old) fetched.now }
    ensures { DoesPart (P.seen port.old) (P.seen port.new) fetched.now.address (Configure lpi) }
{
    let target = look_at_target(port, lpi);
    let (enabled, prio) = config_of(byte_for(port, fetched, target, lpi));
    touch(
        rt,
        port,
        Key::Lpi(lpi),
        Touching::Configure { enabled, prio },
    );
}

/// Does one part of a command, and tells the vCPUs that it concerns. The guest has what the part names, and the actor owes
/// nothing, and has nothing at its interface.
pub(crate) fn do_part<P: Port, R: Wait>(rt: &R, port: &mut P, fetched: &Fetched, part: Part)
    requires part { IsTrue (is_part_of (shape_of (P.seen port.old)) part) }
    requires ease { IsAtEase (P.seen port.old).local }
    requires holds { HoldsCommand (P.seen port.old) fetched.now }
    ensures { DoesPart (P.seen port.old) (P.seen port.new) fetched.now.address part }
{
    match part {
        Part::Raise { lpi } => raise(port, Key::Lpi(lpi)),
        Part::Map { lpi, target } => map(rt, port, fetched, lpi, target),
        Part::Configure { lpi } => configure(rt, port, fetched, lpi),
        Part::Forget { lpi } => {
            touch(rt, port, Key::Lpi(lpi), Touching::Forget);
        }
        Part::Retarget { lpi, target } => {
            touch(rt, port, Key::Lpi(lpi), Touching::Retarget { target });
        }
        Part::Clear { lpi } => {
            touch(rt, port, Key::Lpi(lpi), CLEAR);
        }
    }
}

/// Does a part, if there is one.
pub(crate) fn do_some<P: Port, R: Wait>(rt: &R, port: &mut P, fetched: &Fetched, part: Option<Part>)
    requires part { IfSome part (λ part. IsTrue (is_part_of (shape_of (P.seen port.old)) part)) }
    requires ease { IsAtEase (P.seen port.old).local }
    requires holds { HoldsCommand (P.seen port.old) fetched.now }
    ensures { DoesSome (P.seen port.old) (P.seen port.new) fetched.now.address part }
{
    if let Some(part) = part {
        do_part(rt, port, fetched, part);
    }
}
