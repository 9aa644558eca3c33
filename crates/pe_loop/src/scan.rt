//! A vCPU's scan.
ghost use Rattle.std.specs.Prelude.{◌≡◌, ◌≤◌, ◌++◌, true, IsTrue, List};
ghost use Rattle.port_call.specs.Core.{offered, may_take_index, is_vcpu, owes_no_mark, shape_of};
ghost use Rattle.port_call.specs.Lists.{StandsFor, Offer};
ghost use Rattle.pe_loop.specs.Scanning.{TakesIndex, LooksAt, LooksOver, Rounds};
ghost use Rattle.pe_loop.specs.Marking.{MarksRest};
ghost use Rattle.port_call.specs.Words.{has_interrupt, MAX_LIST_REGISTERS};

use crate::candidates::next_candidate;
use port_call::{
    Chooser, CoreStep, Irq, Key, Port, WordId, fresh, index_bits, index_words, key_of_bit,
};
use vcpu_state::CpuRec;

/// Takes all words of the vCPU's candidate index, in rising order.
fn take_index<P: Port>(port: &mut P)
    requires vcpu { is_vcpu (shape_of (P.seen port.old)) (P.seen port.old).actor ≡ true }
    requires phase { IsTrue (may_take_index (P.seen port.old).local.phase) }
    requires marks { IsTrue (owes_no_mark (P.seen port.old).local) }
    ensures { TakesIndex (P.seen port.old) (P.seen port.new) }
{
    for word in 0..index_words(&port.shape()) {
        port.step(CoreStep::TakeIndex { word });
    }
}

/// Offers an interrupt to a chooser where nobody holds it and no access waits for it.
fn offer_free(chooser: &mut Chooser, cpu: &CpuRec, key: Key, irq: &Irq)
    ensures lrs { chooser.new.lrs ≡ chooser.old.lrs }
    ensures vcpu { chooser.new.vcpu ≡ chooser.old.vcpu }
    ensures stands { (offers : List Offer) → StandsFor chooser.old cpu.now offers → StandsFor chooser.new cpu.now (offers ++ offered key irq.now) }
{
    if irq.holder.is_none() && !irq.want {
        chooser.offer(key, irq, cpu);
    }
}

/// Looks at an interrupt, and offers it to a chooser where nobody holds it and no access waits for it.
fn look_at<P: Port>(port: &mut P, chooser: &mut Chooser, cpu: &CpuRec, key: Key)
    requires there { IsTrue (has_interrupt (shape_of (P.seen port.old)) key) }
    ensures { LooksAt (P.seen port.old) (P.seen port.new) chooser.old chooser.new cpu.now key }
{
    let word = port.step(CoreStep::Look {
        word: WordId::Irq(key),
    });
    if let Some(irq) = port_call::irq_unpack(word) {
        offer_free(chooser, cpu, key, &irq);
    }
}

/// Looks at each candidate of the vCPU once, in key order, and offers what it finds at no interface and not wanted to a
/// chooser, under the vCPU's CPU record.
fn look_over<P: Port>(port: &mut P, chooser: &mut Chooser, cpu: &CpuRec)
    requires vcpu { is_vcpu (shape_of (P.seen port.old)) (P.seen port.old).actor ≡ true }
    ensures { LooksOver (P.seen port.old) (P.seen port.new) chooser.old chooser.new cpu.now }
{
    let shape = port.shape();
    let vcpu = port.actor();
    let end = index_bits(&shape);
    let mut from = 0;
    while let Some(bit) = next_candidate(&port.local_ref().cands, from, end) {
        look_at(port, chooser, cpu, key_of_bit(bit, vcpu, &shape));
        from = bit + 1;
    }
}

/// One round of a scan, of a vCPU on a PE with so many list registers (1 to 16): it takes its candidate index, looks once at
/// each candidate, and keeps of those found at no interface and not wanted what a choice needs.
pub fn look_round<P: Port>(port: &mut P, lrs: u32) -> Chooser
    requires vcpu { is_vcpu (shape_of (P.seen port.old)) (P.seen port.old).actor ≡ true }
    requires phase { IsTrue (may_take_index (P.seen port.old).local.phase) }
    requires marks { IsTrue (owes_no_mark (P.seen port.old).local) }
    requires lrs { 1 ≤ lrs × lrs ≤ MAX_LIST_REGISTERS }
    ensures { Rounds (P.seen port.old) (P.seen port.new) lrs result }
{
    take_index(port);
    let cpu = port.local_ref().cpu;
    let mut chooser = fresh(lrs, port.actor());
    look_over(port, &mut chooser, &cpu);
    chooser
}

/// Marks the candidates that are left to the vCPU itself, in rising order, for its next scan.
pub(crate) fn mark_rest<P: Port>(port: &mut P)
    requires vcpu { is_vcpu (shape_of (P.seen port.old)) (P.seen port.old).actor ≡ true }
    requires marks { IsTrue (owes_no_mark (P.seen port.old).local) }
    ensures { MarksRest (P.seen port.old) (P.seen port.new) }
{
    let shape = port.shape();
    let vcpu = port.actor();
    let end = index_bits(&shape);
    let mut from = 0;
    while let Some(bit) = next_candidate(&port.local_ref().cands, from, end) {
        let key = key_of_bit(bit, vcpu, &shape);
        port.step(CoreStep::Mark { key, vcpu });
        from = bit + 1;
    }
}
