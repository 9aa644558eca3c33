//! EnableLPIs rises.
ghost use Rattle.std.specs.Prelude.{◌≡◌, ◌+◌, ◌/◌, ◌<◌, false, IsTrue};
ghost use Rattle.its_exec.specs.Words.{has_interrupt, Lpi};
ghost use Rattle.its_exec.specs.Core.{shape_of};
ghost use Rattle.its_exec.specs.PortCall.Rest.{IsAtEase};
ghost use Rattle.its_exec.specs.Parts.{LooksAtTarget};
ghost use Rattle.pe_mem.specs.Redist.{EnablesLpis};
ghost use Rattle.pe_mem.specs.Pending.{part_of_number, GetsWord, PendsLpi, DoesNumber};

use its_exec::{
    CoreStep, FIRST_LPI, Key, Kind, PlainWord, Port, Touching, VcpuWord, WordId, extract, has_bit,
    irq_unpack as unpack, pending_address, read_plain, split, target_in, touch,
};
use std::sync::Wait;

/// PTZ, in what GICR_PENDBASER stores.
const PTZ: u32 = 62;

/// A write of 1 to an interrupt's part of ISPENDR.
const PEND: Touching = Touching::Register {
    kind: Kind::SetPending,
    value: 1,
};

/// A word of the guest's memory that was looked at, by its number.
#[derive(Clone, Copy, Debug, PartialEq, Eq, Hash)]
pub struct Fetched {
    index: u32,
    word: u64,
}

/// A word of the guest's memory: the one that was looked at last, or by a look.
fn word_of<P: Port>(port: &mut P, last: Option<Fetched>, index: u32) -> Fetched
    requires { index < (shape_of (P.seen port.old)).ram / 8 }
    ensures { GetsWord (P.seen port.old) (P.seen port.new) last index result }
{
    if let Some(fetched) = last {
        if fetched.index == index {
            return fetched;
        }
    }
    let word = read_plain(port, PlainWord::Ram { index });
    Fetched { index, word }
}

/// The vCPU that an LPI is for, by a look.
fn look_at_target<P: Port>(port: &mut P, id: u32) -> Option<u32>
    requires there { IsTrue (has_interrupt (shape_of (P.seen port.old)) (Lpi id)) }
    requires ease { IsAtEase (P.seen port.old).local }
    ensures { LooksAtTarget (P.seen port.old) (P.seen port.new) id result }
{
    let word = port.step(CoreStep::Look {
        word: WordId::Irq(Key::Lpi(id)),
    });
    target_in(unpack(word).unwrap().route, &port.shape())
}

/// Makes an LPI pending that a look finds to be for a vCPU, whoever it is for once it is touched.
fn pend<P: Port, R: Wait>(rt: &R, port: &mut P, vcpu: u32, id: u32)
    requires there { IsTrue (has_interrupt (shape_of (P.seen port.old)) (Lpi id)) }
    requires ease { IsAtEase (P.seen port.old).local }
    ensures { PendsLpi (P.seen port.old) (P.seen port.new) vcpu id }
{
    if look_at_target(port, id) == Some(vcpu) {
        touch(rt, port, Key::Lpi(id), PEND);
    }
}

/// Goes over the bit of an LPI in the pending table of a vCPU, by its number from 0, with the word of memory that was looked
/// at last. The word that was looked at last then.
fn pend_number<P: Port, R: Wait>(
    rt: &R,
    port: &mut P,
    vcpu: u32,
    pendbaser: u64,
    last: Option<Fetched>,
    number: u32,
) -> Option<Fetched>
    requires there { number < (shape_of (P.seen port.old)).lpis }
    requires ease { IsAtEase (P.seen port.old).local }
    ensures { DoesNumber (P.seen port.old) (P.seen port.new) vcpu pendbaser number last result (part_of_number (shape_of (P.seen port.old)) pendbaser number) }
{
    let (address, bit) = pending_address(pendbaser, FIRST_LPI + number);
    let Some(part) = split(address, 1, port.shape().ram) else {
        return last;
    };
    let fetched = word_of(port, last, part.index);
    if has_bit(extract(fetched.word, &part), bit) {
        pend(rt, port, vcpu, FIRST_LPI + number);
    }
    Some(fetched)
}

/// EnableLPIs of a vCPU becomes 1. As it rises, and unless the pending table is said to have only zeros, each LPI becomes
/// pending that is for the vCPU and has its bit in the table, in rising order; each word of the table is looked at once
/// (IHI 0069, "LPI Pending tables").
pub(crate) fn enable_lpis<P: Port, R: Wait>(rt: &R, port: &mut P, vcpu: u32)
    requires vcpu { vcpu < (shape_of (P.seen port.old)).vcpus }
    requires ease { IsAtEase (P.seen port.old).local }
    ensures { EnablesLpis (P.seen port.old) (P.seen port.new) vcpu }
{
    let word = port.step(CoreStep::EnableLpis { vcpu });
    if VcpuWord::of(word).lpis {
        return;
    }
    let pendbaser = read_plain(port, PlainWord::Pendbaser { vcpu });
    if has_bit(pendbaser, PTZ) {
        return;
    }
    let mut last = None;
    for number in 0..port.shape().lpis {
        last = pend_number(rt, port, vcpu, pendbaser, last, number);
    }
}
