//! The interrupt lines of a vCPU on a PE.
ghost use Rattle.std.specs.Prelude.{◌≡◌, ◌≢◌, ◌<◌, ◌≤◌, true, false, IsTrue, All};
ghost use Rattle.gic_line.specs.Lines.{lines_by};
ghost use Rattle.pe_loop.specs.Core.{has_no_cand, index_bits as bits_of, index_words as words_of, is_cand, is_vcpu, shape_of};
ghost use Rattle.pe_loop.specs.Lists.{HasDirection, StandFor, hcr_en};
ghost use Rattle.pe_loop.specs.Registers.{InterfaceState, IsInterface, candidates_at, interface_answer};
ghost use Rattle.pe_loop.specs.Stay.{IsOpen, IsUp};
ghost use Rattle.pe_loop.specs.Words.{has_bit as bit_is_set, has_interrupt};
ghost use Rattle.pe_icc.specs.Lines.{is_intid as is_intid_of, FindsOne, LooksAtBits, LooksAtWords, LooksRound, TellsLines};

use crate::operate::operate;
use crate::stay::copy_of;
use gic_line::{Candidate, Lines, deliverable, earlier};
use pe_loop::{
    CAND_WORDS, CoreStep, IccReg, Key, Loaded, Port, WordId, has_bit, index_bits, index_words,
    key_of_bit, unpack,
};

/// What IAR answers where it acknowledges no interrupt (IHI 0069, "Special INTIDs").
const SPURIOUS: u64 = 1023;

/// The bits of a word.
const WORD_BITS: u32 = 64;

/// Whether a read answered the INTID of an interrupt.
fn is_intid(answer: Option<u64>) -> bool
    ensures { result ≡ is_intid_of answer }
{
    match answer {
        Some(id) => id != SPURIOUS,
        None => false,
    }
}

/// What a read of a register would answer, by the registers of the vCPU's PE, which stay as they are.
fn answer(vcpu: &Loaded, reg: IccReg) -> Option<u64>
    requires lrs { 1 ≤ vcpu.now.regs.n × vcpu.now.regs.n ≤ 16 }
    requires direction { HasDirection reg None }
    requires enabled { bit_is_set vcpu.now.regs.hcr hcr_en ≡ true }
    requires free { vcpu.now.trapping ≡ false → IsOpen vcpu.now.regs.hcr }
    ensures { (interface : InterfaceState) → IsInterface interface → StandFor vcpu.now.regs vcpu.now.held interface → result ≡ interface_answer reg None interface }
{
    let mut copy = copy_of(vcpu);
    operate(&mut copy, reg, None)
}

/// The lines of a vCPU by the registers of its PE: whether IAR1 and IAR0 would answer an INTID.
fn lines_of_registers(vcpu: &Loaded) -> Lines
    requires lrs { 1 ≤ vcpu.now.regs.n × vcpu.now.regs.n ≤ 16 }
    requires enabled { bit_is_set vcpu.now.regs.hcr hcr_en ≡ true }
    requires free { vcpu.now.trapping ≡ false → IsOpen vcpu.now.regs.hcr }
    ensures { (interface : InterfaceState) → IsInterface interface → StandFor vcpu.now.regs vcpu.now.held interface → All (λ one. one.id ≢ 1023) (candidates_at interface) → result ≡ lines_by interface.cpu (candidates_at interface) }
{
    Lines {
        irq: is_intid(answer(vcpu, IccReg::Iar1)),
        fiq: is_intid(answer(vcpu, IccReg::Iar0)),
    }
}

/// Looks at all words of the vCPU's candidate index, in rising order, and takes none of their bits.
fn look_at_index<P: Port>(port: &mut P) -> [u64; CAND_WORDS]
    requires { is_vcpu (shape_of (P.seen port.old)) (P.seen port.old).actor ≡ true }
    ensures { LooksAtWords (P.seen port.old) (P.seen port.new) (words_of (shape_of (P.seen port.old))) result }
{
    let mut words = [0; CAND_WORDS];
    let vcpu = port.actor();
    for word in 0..index_words(&port.shape()) {
        words[word as usize] = port.step(CoreStep::Look {
            word: WordId::Index { vcpu, word },
        });
    }
    words
}

/// Looks at an interrupt: it as a candidate, if it is at no interface, not wanted, and deliverable to the vCPU.
fn find_at<P: Port>(port: &mut P, key: Key) -> Option<Candidate>
    requires vcpu { is_vcpu (shape_of (P.seen port.old)) (P.seen port.old).actor ≡ true }
    requires there { IsTrue (has_interrupt (shape_of (P.seen port.old)) key) }
    ensures { FindsOne (P.seen port.old) (P.seen port.new) key result }
{
    let vcpu = port.actor();
    let cpu = port.local_ref().cpu;
    let word = port.step(CoreStep::Look {
        word: WordId::Irq(key),
    });
    let irq = unpack(word)?;
    let is_found = irq.holder.is_none() && !irq.want && deliverable(key, &irq, vcpu, &cpu);
    is_found.then_some(Candidate {
        id: key.intid(),
        prio: irq.prio,
        group: irq.group,
    })
}

/// Whether a bit is set in the words of an index.
fn is_marked(words: &[u64; CAND_WORDS], bit: u32) -> bool
    requires { bit < 6144 }
    ensures { result ≡ is_cand (record { words = words.now }) bit }
{
    has_bit(words[(bit / WORD_BITS) as usize], bit % WORD_BITS)
}

/// Looks at the interrupt of a bit, where that is set in these words: the first of those found before and of this one.
fn look_at_bit<P: Port>(
    port: &mut P,
    words: &[u64; CAND_WORDS],
    bit: u32,
    first: Option<Candidate>,
) -> Option<Candidate>
    requires vcpu { is_vcpu (shape_of (P.seen port.old)) (P.seen port.old).actor ≡ true }
    requires none { IsTrue (has_no_cand (P.seen port.old).local) }
    requires within { bit < bits_of (shape_of (P.seen port.old)) }
    ensures { LooksAtBits (P.seen port.old) (P.seen port.new) words.now bit 1 first result }
{
    if !is_marked(words, bit) {
        return first;
    }
    let key = key_of_bit(bit, port.actor(), &port.shape());
    match find_at(port, key) {
        Some(next) => Some(earlier(first, next)),
        None => first,
    }
}

/// Looks once at each interrupt whose bit is set in these words: the first that is deliverable to the vCPU.
fn look_at_bits<P: Port>(port: &mut P, words: &[u64; CAND_WORDS]) -> Option<Candidate>
    requires vcpu { is_vcpu (shape_of (P.seen port.old)) (P.seen port.old).actor ≡ true }
    requires none { IsTrue (has_no_cand (P.seen port.old).local) }
    ensures { LooksAtBits (P.seen port.old) (P.seen port.new) words.now 0 (bits_of (shape_of (P.seen port.old))) None result }
{
    let mut first = None;
    for bit in 0..index_bits(&port.shape()) {
        first = look_at_bit(port, words, bit, first);
    }
    first
}

/// What a scan would find first that is deliverable to the vCPU, by looks that take nothing.
fn look_for_first<P: Port>(port: &mut P) -> Option<Candidate>
    requires vcpu { is_vcpu (shape_of (P.seen port.old)) (P.seen port.old).actor ≡ true }
    requires none { IsTrue (has_no_cand (P.seen port.old).local) }
    ensures { LooksRound (P.seen port.old) (P.seen port.new) result }
{
    let words = look_at_index(port);
    look_at_bits(port, &words)
}

/// Which interrupt lines of a vCPU on a PE are asserted (IHI 0069, "Interrupt signaling"): IRQ exactly where a read of IAR1 that
/// finds no kick would answer an INTID, and FIQ where one of IAR0 would. Out of trap mode the registers tell it. In trap mode,
/// in which they are empty, the vCPU looks at its candidate index and once at each interrupt whose bit is there, and takes
/// nothing. Nothing of the vCPU changes. It never waits, and takes no memory.
pub fn lines<P: Port>(port: &mut P, vcpu: &Loaded) -> Lines
    requires { IsUp (P.seen port.old) vcpu.now }
    ensures { TellsLines (P.seen port.old) (P.seen port.new) vcpu.now result }
{
    if vcpu.trapping {
        let first = look_for_first(port);
        return Lines::of(first, &port.local_ref().cpu);
    }
    lines_of_registers(vcpu)
}
