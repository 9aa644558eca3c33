//! Registers that have a part for each interrupt.
ghost use Rattle.std.specs.Prelude.{◌≡◌, ◌+◌, ◌*◌, ◌≤◌, ◌<◌, ◌^◌, IfSome};
ghost use Rattle.its_exec.specs.Registers.{part_bits};
ghost use Rattle.its_exec.specs.Calls.{part_key as part_key_in, FitParts, CanTouch};
ghost use Rattle.its_exec.specs.Core.{shape_of};
ghost use Rattle.its_exec.specs.PortCall.Rest.{IsAtEase};
ghost use Rattle.pe_mem.specs.declared.attempt.PartAccess.TheVariants.{WritesHalf};
ghost use Rattle.pe_mem.specs.Part.{touching_of, CanAttempt, Attempts, Accesses};
ghost use Rattle.pe_mem.specs.Each.{part_written_of, AccessesNumber, AccessesParts};

use crate::attempt::{PartAccess, attempt, try_access};
use its_exec::{Frame, Half, Irq, Key, Kind, Port, part_in, part_key, with_part};
use std::sync::Wait;

/// Makes an access to an interrupt's part: it tries until nobody holds the interrupt, and asks who does for it. A read answers
/// the part, and a write 0.
fn access_part<P: Port, R: Wait>(
    rt: &R,
    port: &mut P,
    key: Key,
    kind: Kind,
    write: Option<u64>,
) -> u64
    requires can { CanTouch (shape_of (P.seen port.old)) key (touching_of kind write) }
    requires ease { IsAtEase (P.seen port.old).local }
    ensures done { Accesses (P.seen port.old) (P.seen port.new) key kind write result }
    ensures fits { result < 2 ^ part_bits kind }
{
    for _ in rt.forever() {
        if let Ok(answer) = try_access(port, key, kind, write) {
            return answer;
        }
    }
    unreachable!()
}

/// Writes a half of the part of 64 bits that an interrupt has, and answers the record that it found: it tries until nobody
/// holds the interrupt. The other half is as it is stored.
pub(crate) fn write_half<P: Port, R: Wait>(
    rt: &R,
    port: &mut P,
    key: Key,
    kind: Kind,
    half: Half,
    value: u64,
) -> Irq
    requires can { CanAttempt (shape_of (P.seen port.old)) key kind (WritesHalf half value) }
    requires ease { IsAtEase (P.seen port.old).local }
    ensures { Attempts (P.seen port.old) (P.seen port.new) key kind (WritesHalf half value) result }
{
    let access = PartAccess::WritesHalf { half, value };
    for _ in rt.forever() {
        if let Ok(irq) = attempt(port, key, kind, access) {
            return irq;
        }
    }
    unreachable!()
}

/// Makes an access to the part that the interrupt with an INTID has in a frame. Where there is none, nothing is done and the
/// answer is 0.
pub(crate) fn access_number<P: Port, R: Wait>(
    rt: &R,
    port: &mut P,
    frame: Frame,
    kind: Kind,
    id: u32,
    write: Option<u64>,
) -> u64
    requires fits { IfSome write (λ value. value < 2 ^ part_bits kind) }
    requires ease { IsAtEase (P.seen port.old).local }
    ensures done { AccessesNumber (P.seen port.old) (P.seen port.new) (part_key_in (shape_of (P.seen port.old)) frame kind id) kind write result }
    ensures fits { result < 2 ^ part_bits kind }
{
    match part_key(frame, kind, id, &port.shape()) {
        Some(key) => access_part(rt, port, key, kind, write),
        None => 0,
    }
}

/// What a write has for the part of a number, if it is one.
fn written_in(kind: Kind, write: Option<u64>, number: u32) -> Option<u64>
    requires { number * part_bits kind + part_bits kind ≤ 64 }
    ensures value { result ≡ part_written_of kind write number }
    ensures fits { IfSome result (λ value. value < 2 ^ part_bits kind) }
{
    match write {
        Some(value) => Some(part_in(kind, value, number)),
        None => None,
    }
}

/// Makes an access to registers that have a part for each interrupt, in a frame: of a kind, for `count` interrupts from the
/// INTID `first` on, one after the other; a read, or a write of a value. A read answers the parts, with 0 for each interrupt
/// that is not there, and a write 0 (IHI 0069, "The Distributor register map").
pub(crate) fn access_parts<P: Port, R: Wait>(
    rt: &R,
    port: &mut P,
    frame: Frame,
    kind: Kind,
    first: u32,
    count: u32,
    write: Option<u64>,
) -> u64
    requires fits { FitParts kind first count }
    requires ease { IsAtEase (P.seen port.old).local }
    ensures { AccessesParts (P.seen port.old) (P.seen port.new) frame kind first count write result }
{
    let mut value = 0;
    for number in 0..count {
        let write = written_in(kind, write, number);
        let part = access_number(rt, port, frame, kind, first + number, write);
        value = with_part(kind, value, part, number);
    }
    value
}
