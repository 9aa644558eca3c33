//! The words of a guest as it opens, and as they are told of at its end.
ghost use Rattle.std.specs.Prelude.{◌≡◌, ◌↔◌, ℕ, ◌<◌, All, IsTrue, IfOk, length};
ghost use Rattle.port_core.specs.Words.{GuestShape, IsShape, interrupt_count as count_of_irqs, key_at as key_in};
ghost use Rattle.port_core.specs.Calls.{plain_count as count_of_plain};
ghost use Rattle.port_core.specs.IdealGuests.CanOpen.{CanOpen};
ghost use Rattle.port_core.specs.CoreWords.declared.word_id.WordId.TheVariants.{Irq as IrqWord, Vcpu, Plain};
ghost use Rattle.port_core.specs.Place.{has_word, word_count as count_of};
ghost use Rattle.port_core.specs.Run.{concerns as does_concern, is_asked, opening, opening_index as index_at_opening, opening_word as word_at_opening, opening_word_of};
ghost use Rattle.port_ops.specs.Quiet.{is_quiet};
ghost use Rattle.port_ops.specs.GuestWords.{word_among, words_among, words_at_end};

use port_core::{
    CtlrWord, GuestShape, GuestWords, IdealGuest, Irq, ItsTables, Line, ListOf, QueueWord,
    VcpuWord, WordId, WordList, index_bits, interrupt_count, key_at, key_of_bit, pack, pack_line,
    pending, place_of_word, plain_count, queue_pack, ripe, word_at, word_count,
};
use std::alloc::{AllocError, Global};

/// The bits of a word.
const WORD_BITS: u32 = 64;

/// Whether an interrupt concerns a vCPU of its guest: it is ripe for it, or active by it.
fn concerns(irq: &Irq, vcpu: u32) -> bool
    ensures { (shape : GuestShape) → vcpu < shape.vcpus → result ≡ does_concern shape vcpu irq.now }
{
    ripe(irq, vcpu) || irq.act_by == Some(vcpu)
}

/// Whether a bit of a vCPU's candidate index is one of an interrupt that concerns the vCPU.
fn asks(guest: &IdealGuest, vcpu: u32, bit: u32) -> bool
    requires good { CanOpen guest.now }
    requires there { vcpu < guest.now.shape.vcpus }
    ensures { result ≡ is_asked guest.now vcpu bit }
{
    bit < index_bits(&guest.shape)
        && concerns(&guest.irq(key_of_bit(bit, vcpu, &guest.shape)), vcpu)
}

/// A word of a vCPU's candidate index as the guest opens, where the guest may be told to have no interrupt that is pending or
/// active.
fn index_word(guest: &IdealGuest, are_quiet: bool, vcpu: u32, number: u32) -> u64
    requires good { CanOpen guest.now }
    requires quiet { IsTrue are_quiet → All (λ irq. IsTrue (is_quiet irq)) guest.now.irqs }
    requires there { vcpu < guest.now.shape.vcpus }
    requires few { number < 96 }
    ensures { result ≡ index_at_opening guest.now vcpu number }
{
    if are_quiet {
        return 0;
    }
    let mut word = 0u64;
    for bit in 0..WORD_BITS {
        if asks(guest, vcpu, WORD_BITS * number + bit) {
            word |= 1 << bit;
        }
    }
    word
}

/// Whether no interrupt is pending or active.
fn are_quiet(irqs: &[Irq]) -> bool
    ensures { IsTrue result ↔ All (λ irq. IsTrue (is_quiet irq)) irqs.now }
{
    irqs.iter().all(|irq| !pending(irq) && irq.act_by.is_none())
}

/// A word as a guest opens, where the guest may be told to have no interrupt that is pending or active.
fn word_of_guest(guest: &IdealGuest, are_quiet: bool, word: WordId) -> u64
    requires good { CanOpen guest.now }
    requires quiet { IsTrue are_quiet → All (λ irq. IsTrue (is_quiet irq)) guest.now.irqs }
    requires there { IsTrue (has_word guest.now.shape word) }
    ensures { result ≡ opening_word_of guest.now word }
{
    match word {
        WordId::Irq(key) => pack(&guest.irq(key)),
        WordId::Vcpu(vcpu) => VcpuWord {
            lpis: guest.cpu(vcpu).lpis,
            kick: false,
        }
        .pack(),
        WordId::Index { vcpu, word } => index_word(guest, are_quiet, vcpu, word),
        WordId::Queue => queue_pack(&QueueWord {
            offset: guest.offset,
            stalled: guest.is_stalled,
            turn: None,
        }),
        WordId::Ctlr => CtlrWord {
            enables: guest.enables,
            mark: None,
        }
        .pack(),
        WordId::Plain(index) => guest.words.as_slice()[index as usize],
        WordId::Line(_) => pack_line(&Line::EMPTY),
    }
}

/// The word at a place as a guest opens.
fn opening_word(place: usize, guest: &IdealGuest, are_quiet: bool) -> u64
    requires good { CanOpen guest.now }
    requires quiet { IsTrue are_quiet → All (λ irq. IsTrue (is_quiet irq)) guest.now.irqs }
    requires within { place < count_of guest.now.shape }
    ensures { result ≡ word_at_opening guest.now place }
{
    match word_at(place, &guest.shape) {
        Some(word) => word_of_guest(guest, are_quiet, word),
        None => 0,
    }
}

/// All words of a guest as it opens, each at its place. An error where memory for them is refused.
pub fn opening_words(alloc: Global, guest: &IdealGuest) -> Result<WordList, AllocError>
    requires { CanOpen guest.now }
    ensures { IfOk result (λ words. (number : ℕ) → words ≡ (opening guest.now number).words) }
{
    let quiet = are_quiet(guest.irqs.as_slice());
    let mut words = ListOf::new(alloc);
    for place in 0..word_count(&guest.shape) {
        words.push(opening_word(place, guest, quiet))?;
    }
    Ok(words)
}

/// A word among all of a guest's.
fn word_of(word: WordId, words: &[u64], shape: &GuestShape) -> u64
    requires shape { IsShape shape.now }
    requires all { length words.now ≡ count_of shape.now }
    requires there { IsTrue (has_word shape.now word) }
    ensures { result ≡ word_among shape.now words.now word }
{
    words[place_of_word(word, shape)]
}

/// The words of the interrupts, in key order.
fn irq_words(alloc: Global, words: &[u64], shape: &GuestShape) -> Result<WordList, AllocError>
    requires shape { IsShape shape.now }
    requires all { length words.now ≡ count_of shape.now }
    ensures { IfOk result (λ list. list ≡ words_among shape.now words.now (λ place. IrqWord (key_in shape.now place)) (count_of_irqs shape.now)) }
{
    let mut list = ListOf::new(alloc);
    for place in 0..interrupt_count(shape) {
        list.push(word_of(WordId::Irq(key_at(place, shape)), words, shape))?;
    }
    Ok(list)
}

/// The words of the vCPUs.
fn vcpu_words(alloc: Global, words: &[u64], shape: &GuestShape) -> Result<WordList, AllocError>
    requires shape { IsShape shape.now }
    requires all { length words.now ≡ count_of shape.now }
    ensures { IfOk result (λ list. list ≡ words_among shape.now words.now Vcpu shape.now.vcpus) }
{
    let mut list = ListOf::new(alloc);
    for vcpu in 0..shape.vcpus {
        list.push(word_of(WordId::Vcpu(vcpu), words, shape))?;
    }
    Ok(list)
}

/// The plain words.
fn plain_words(alloc: Global, words: &[u64], shape: &GuestShape) -> Result<WordList, AllocError>
    requires shape { IsShape shape.now }
    requires all { length words.now ≡ count_of shape.now }
    ensures { IfOk result (λ list. list ≡ words_among shape.now words.now Plain (count_of_plain shape.now)) }
{
    let mut list = ListOf::new(alloc);
    for place in 0..plain_count(shape) {
        list.push(word_of(WordId::Plain(place as u32), words, shape))?;
    }
    Ok(list)
}

/// The words of a guest and its tables, as they are told of at its end: of all its words, each at its place. An error
/// where memory for them is refused.
pub fn guest_words(
    alloc: Global,
    words: &[u64],
    tables: ItsTables,
    shape: &GuestShape,
) -> Result<GuestWords, AllocError>
    requires shape { IsShape shape.now }
    requires all { length words.now ≡ count_of shape.now }
    ensures { IfOk result (λ guest. guest ≡ words_at_end shape.now words.now tables) }
{
    Ok(GuestWords {
        irqs: irq_words(alloc, words, shape)?,
        vcpus: vcpu_words(alloc, words, shape)?,
        queue: word_of(WordId::Queue, words, shape),
        ctlr: word_of(WordId::Ctlr, words, shape),
        plain: plain_words(alloc, words, shape)?,
        tables,
    })
}
