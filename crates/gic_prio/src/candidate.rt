//! The order in which interrupts are delivered (IHI 0069, "Interrupt prioritization").
ghost use Rattle.std.specs.Prelude.{◌≡◌, ◌⊎◌, Some, List, [], ◌∷◌, ◌++◌};
ghost use Rattle.gic_prio.specs.declared.candidate.Candidate.{Candidate};
ghost use Rattle.gic_prio.specs.Delivery.{is_before, first_of};

use floor_words::Group;

/// An interrupt that a CPU interface may deliver, by the INTID that the vCPU reads. At one vCPU an INTID names
/// one interrupt.
#[derive(Clone, Copy, Debug, PartialEq, Eq, Hash)]
pub struct Candidate {
    /// The INTID.
    pub id: u32,
    /// A multiple of 8 from 0 to 248.
    pub prio: u8,
    pub group: Group,
}

impl Candidate {
    /// Whether this one is delivered before the other: by priority, and then by INTID.
    pub fn is_before(&self, other: &Candidate) -> bool
        ensures { result ≡ is_before self.now other.now }
    {
        self.prio < other.prio || (self.prio == other.prio && self.id < other.id)
    }
}

/// The first of some candidates and of one more, from the first of those candidates: none where there
/// were none.
pub fn earlier(first: Option<Candidate>, next: Candidate) -> Candidate
    ensures first { (seen : List Candidate) → first ≡ first_of seen → first_of (seen ++ next ∷ []) ≡ Some result }
    ensures among { (result ≡ next) ⊎ (first ≡ Some result) }
{
    match first {
        None => next,
        Some(first) => { if next.is_before(&first) { next } else { first } }
    }
}
