//! Sets of vCPUs, and the candidates of a vCPU.
ghost use Rattle.std.specs.Prelude.{◌≡◌, ◌<◌, ◌≤◌, ◌/◌, ◌^◌, IsTrue, List, length, All, Option};
ghost use Rattle.core_words.specs.Words.{IsSeat, IsShape, max_vcpus, has_interrupt};
ghost use Rattle.port_core.specs.Local.{no_vcpus, with_vcpu as set_with, with_some as set_with_some, with_all as set_with_all, without_vcpu as set_without, no_cands, without_cand, with_cand_word, is_cand, settled};

use core_words::{GuestShape, Key, Targets, WORD_BITS, index_bit};

/// The words of a vCPU's candidates.
pub const CAND_WORDS: usize = 96;

/// No vCPU.
pub const NO_VCPUS: Targets = Targets(0);

/// The set with a vCPU more, of a number below 32.
pub fn with_vcpu(set: Targets, vcpu: u32) -> Targets
    requires { vcpu < max_vcpus }
    ensures { result ≡ set_with set vcpu }
{
    Targets(set.0 | (1 << vcpu))
}

/// The set with each vCPU of a list that is there, of a number below 32.
pub fn with_all(set: Targets, vcpus: &[Option<u32>]) -> Targets
    requires { All IsSeat vcpus.now }
    ensures { result ≡ set_with_all set vcpus.now }
{
    let mut all = set;
    for vcpu in vcpus {
        if let Some(number) = *vcpu {
            all = with_vcpu(all, number);
        }
    }
    all
}

/// The set without a vCPU, of a number below 32.
pub fn without_vcpu(set: Targets, vcpu: u32) -> Targets
    requires { vcpu < max_vcpus }
    ensures { result ≡ set_without set vcpu }
{
    Targets(set.0 & !(1 << vcpu))
}

/// The marks that an actor owes: of one interrupt, to some vCPUs.
#[derive(Clone, Copy, Debug, PartialEq, Eq, Hash)]
pub struct MarkSet {
    pub key: Option<Key>,
    pub vcpus: Targets,
}

/// The interrupts that a vCPU found in its index and did not settle yet, a bit each.
#[derive(Clone, Copy, Debug, PartialEq, Eq)]
pub struct Cands {
    pub words: [u64; CAND_WORDS],
}

impl Cands {
    /// No candidate.
    pub fn none() -> Cands
        ensures { result ≡ no_cands }
    {
        Cands {
            words: [0; CAND_WORDS],
        }
    }

    /// Whether the interrupt of a bit, below 6144, is a candidate.
    pub fn has(&self, bit: u32) -> bool
        requires { bit / 64 < 96 }
        ensures { result ≡ is_cand self.now bit }
    {
        core_words::has_bit(self.words[(bit / WORD_BITS) as usize], bit % WORD_BITS)
    }

    /// Without the interrupt of a bit, below 6144.
    fn remove(&mut self, bit: u32)
        requires { bit / 64 < 96 }
        ensures { self.new ≡ without_cand self.old bit }
    {
        self.words[(bit / WORD_BITS) as usize] &= !(1 << (bit % WORD_BITS));
    }

    /// With the bits of a word, of a number below 96.
    pub(crate) fn add(&mut self, word: u32, bits: u64)
        requires { word < 96 }
        ensures { self.new ≡ with_cand_word self.old word bits }
    {
        self.words[word as usize] |= bits;
    }

    /// Without an interrupt of the guest, if the actor is a vCPU that the interrupt can get to.
    pub(crate) fn settle(&mut self, key: Key, actor: u32, shape: &GuestShape)
        requires shape { IsShape shape.now }
        requires there { IsTrue (has_interrupt shape.now key) }
        ensures { self.new ≡ settled shape.now actor key self.old }
    {
        let is_own = match key {
            Key::Private { vcpu, .. } => vcpu == actor,
            Key::Spi(_) | Key::Lpi(_) => true,
        };
        if actor < shape.vcpus && is_own {
            self.remove(index_bit(key, shape));
        }
    }
}
