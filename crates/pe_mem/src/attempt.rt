//! One try of an access to the part of one interrupt.
ghost use Rattle.std.specs.Prelude.{◌≡◌, ◌<◌, ◌^◌, IsTrue, IfOk, IfErr};
ghost use Rattle.its_exec.specs.Words.{Kind, Irq, IsIrq, IsWord, irq_of};
ghost use Rattle.its_exec.specs.Registers.{part_bits, shows_route, part_read};
ghost use Rattle.its_exec.specs.Calls.{CanTouch};
ghost use Rattle.its_exec.specs.Core.{shape_of};
ghost use Rattle.its_exec.specs.PortCall.Rest.{IsAtEase};
ghost use Rattle.its_exec.specs.PortCall.Touch.{MissesTouch};
ghost use Rattle.pe_mem.specs.Part.{touching_by, touching_of, part_answer, FitsPart, CanAttempt, Attempts, Misses, Accesses};

use its_exec::{Half, Irq, Key, Kind, Missed, Port, Touching, look_home, read_part, touch_seen};

/// An access to the part that an interrupt has in the registers of a kind.
#[derive(Clone, Copy, Debug, PartialEq, Eq, Hash)]
pub enum PartAccess {
    /// A read.
    Reads,
    /// A write of a value, which has as many bits as the part.
    Writes { value: u64 },
    /// A write of a half of a part of 64 bits: the other half is as it is stored.
    WritesHalf { half: Half, value: u64 },
}

impl PartAccess {
    /// What the access does to an interrupt with this record.
    fn touching(self, kind: Kind, irq: &Irq) -> Touching
        requires irq { IsIrq irq.now }
        requires shown { IsTrue (shows_route kind irq.now.route) }
        requires fits { FitsPart self }
        ensures { result ≡ touching_by self kind irq.now }
    {
        match self {
            PartAccess::Reads => Touching::Read { kind },
            PartAccess::Writes { value } => Touching::Register { kind, value },
            PartAccess::WritesHalf { half, value } => Touching::Register {
                kind,
                value: half.written(read_part(kind, irq), value),
            },
        }
    }
}

/// The record of an interrupt, by its word.
fn record_in(word: u64) -> Irq
    requires { IsWord word }
    ensures value { result ≡ irq_of word }
    ensures packable { IsIrq result }
{
    its_exec::irq_unpack(word).unwrap()
}

/// Tries an access to an interrupt's part, and answers the record that it found: it looks at the interrupt, and touches it
/// where nobody holds it. Why it missed otherwise.
pub(crate) fn attempt<P: Port>(
    port: &mut P,
    key: Key,
    kind: Kind,
    access: PartAccess,
) -> Result<Irq, Missed>
    requires can { CanAttempt (shape_of (P.seen port.old)) key kind access }
    requires ease { IsAtEase (P.seen port.old).local }
    ensures done { IfOk result (λ irq. Attempts (P.seen port.old) (P.seen port.new) key kind access irq) }
    ensures missed { IfErr result (λ missed. Misses (P.seen port.old) (P.seen port.new) key kind access missed) }
{
    let seen = look_home(port, key)?;
    let irq = record_in(seen);
    touch_seen(port, key, seen, access.touching(kind, &irq))?;
    Ok(irq)
}

/// The access that reads, or writes a value.
fn access_by(write: Option<u64>) -> PartAccess
    ensures does { (kind : Kind) (irq : Irq) → touching_by result kind irq ≡ touching_of kind write }
    ensures fits { FitsPart result }
{
    match write {
        None => PartAccess::Reads,
        Some(value) => PartAccess::Writes { value },
    }
}

/// What an access answers that found the interrupt with this record: a read its part, and a write 0.
fn answer_of(kind: Kind, write: Option<u64>, irq: &Irq) -> u64
    requires irq { IsIrq irq.now }
    requires shown { IsTrue (shows_route kind irq.now.route) }
    ensures value { result ≡ part_answer write (part_read kind irq.now) }
    ensures fits { result < 2 ^ part_bits kind }
{
    match write {
        None => read_part(kind, irq),
        Some(_) => 0,
    }
}

/// Tries an access to an interrupt's part of the registers of a kind: a read, or a write of a value that has as many bits as
/// the part. It looks at the interrupt, and touches it where nobody holds it, with the word that was looked at. A read answers
/// the part, and a write 0. Held exactly where the last of these two found that a vCPU holds it; the vCPU is asked for it then,
/// and kicked. Changed exactly where the touch found a word without a holder that differs from the one that was looked at. Of
/// the interrupt nothing changed then, but that an access waits for it after Held. The marks and kicks that are owed for the
/// access are sent before it returns. The actor owes nothing, and has nothing at its interface. It takes no memory.
pub fn try_access<P: Port>(
    port: &mut P,
    key: Key,
    kind: Kind,
    write: Option<u64>,
) -> Result<u64, Missed>
    requires can { CanTouch (shape_of (P.seen port.old)) key (touching_of kind write) }
    requires ease { IsAtEase (P.seen port.old).local }
    ensures done { IfOk result (λ answer. Accesses (P.seen port.old) (P.seen port.new) key kind write answer) }
    ensures fits { IfOk result (λ answer. answer < 2 ^ part_bits kind) }
    ensures missed { IfErr result (λ missed. MissesTouch (P.seen port.old) (P.seen port.new) key (touching_of kind write) missed) }
{
    let irq = attempt(port, key, kind, access_by(write))?;
    Ok(answer_of(kind, write, &irq))
}
