//! GICD_CTLR.
ghost use Rattle.std.specs.Prelude.{◌≡◌, ◌%◌, ◌^◌, ◌<◌, false};
ghost use Rattle.its_exec.specs.Registers.{enables_in as enables_of, Whole};
ghost use Rattle.its_exec.specs.GicDmap.declared.map.Reg.TheVariants.{Ctlr};
ghost use Rattle.its_exec.specs.PortCall.Rest.{IsAtEase};
ghost use Rattle.pe_mem.specs.Ctlr.{TriesMark, TakesMark, CopiesEnables};
ghost use Rattle.pe_mem.specs.Dist.{ReadsDist, WritesDist};

use its_exec::{
    CoreStep, CtlrWord, Enables, Port, Touching, WordId, enables_in, interrupt_count, key_at, touch,
};
use std::sync::Wait;

/// The low half of a value.
pub(crate) fn low(value: u64) -> u32
    ensures { result ≡ value % 2 ^ 32 }
{
    (value % (1 << 32)) as u32
}

/// The group enables at their bits: EnableGrp0 at 0, and EnableGrp1 at 1.
fn packed(enables: Enables) -> u32
    ensures fits { result < 4 }
    ensures back { enables_of result ≡ enables }
{
    u32::from(enables.group0) + 2 * u32::from(enables.group1)
}

/// Looks at GICD_CTLR, and tries to take its mark and to store the group enables, where nobody has the mark. Whether it did.
fn try_mark<P: Port>(port: &mut P, enables: Enables) -> bool
    ensures { TriesMark (P.seen port.old) (P.seen port.new) enables result }
{
    let seen = port.step(CoreStep::Look { word: WordId::Ctlr });
    if CtlrWord::of(seen).mark.is_some() {
        return false;
    }
    let value = packed(enables);
    port.step(CoreStep::CtlrTake { seen, value }) == seen
}

/// Takes the mark of GICD_CTLR and stores the group enables: it looks at GICD_CTLR until nobody has the mark, and tries then,
/// again and again.
fn take_mark<P: Port, R: Wait>(rt: &R, port: &mut P, enables: Enables)
    ensures { TakesMark (P.seen port.old) (P.seen port.new) enables }
{
    for _ in rt.forever() {
        if try_mark(port, enables) {
            return;
        }
    }
    unreachable!()
}

/// Copies the group enables to each interrupt of the guest, in key order.
fn copy_enables<P: Port, R: Wait>(rt: &R, port: &mut P, enables: Enables)
    requires { IsAtEase (P.seen port.old).local }
    ensures { CopiesEnables (P.seen port.old) (P.seen port.new) enables }
{
    let shape = port.shape();
    for place in 0..interrupt_count(&shape) {
        let copy = Touching::Enables {
            en0: enables.group0,
            en1: enables.group1,
        };
        touch(rt, port, key_at(place, &shape), copy);
    }
}

/// A write of GICD_CTLR: it waits until no other write copies its enables, stores these, and copies them to each interrupt; RWP
/// reads 1 until the last one has its copy.
pub(crate) fn write_ctlr<P: Port, R: Wait>(rt: &R, port: &mut P, value: u64)
    requires ease { IsAtEase (P.seen port.old).local }
    requires free { (P.seen port.old).local.ctlr ≡ false }
    ensures { WritesDist (P.seen port.old) (P.seen port.new) Ctlr Whole value }
{
    let enables = enables_in(low(value));
    take_mark(rt, port, enables);
    copy_enables(rt, port, enables);
    port.step(CoreStep::CtlrEnd);
}

/// What GICD_CTLR reads.
pub(crate) fn read_ctlr<P: Port>(port: &mut P) -> u64
    requires { IsAtEase (P.seen port.old).local }
    ensures { ReadsDist (P.seen port.old) (P.seen port.new) Ctlr result }
{
    let word = CtlrWord::of(port.step(CoreStep::Look { word: WordId::Ctlr }));
    u64::from(its_exec::dist_ctlr(word.enables, word.mark.is_some()))
}
