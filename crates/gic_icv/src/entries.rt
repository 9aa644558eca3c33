//! What the list registers hold for the guest's CPU interface.
ghost use Rattle.std.specs.Prelude.{◌≡◌, position};
ghost use Rattle.gic_ich.specs.GicPrio.Delivery.{first_of};
ghost use Rattle.gic_icv.specs.Entries.{candidate_in as candidate_of_word, candidates_in, has_candidate as has_found, has_active as has_active_id, acknowledged_word, deactivated_word};

use gic_ich::{
    Candidate, CpuRec, FIRST_LPI, LrState, earlier, listens, lr_unpack as unpack, with_state,
};

/// A list register as a candidate for delivery: State 1, and of a group that the vCPU listens to.
fn candidate_in(cpu: &CpuRec, word: u64) -> Option<Candidate>
    ensures { result ≡ candidate_of_word cpu.now word }
{
    let entry = unpack(word);
    let is_candidate = entry.state == LrState::Pending && listens(cpu, entry.group);
    is_candidate.then_some(Candidate {
        id: entry.id,
        prio: entry.prio,
        group: entry.group,
    })
}

/// The first candidate that the list registers have.
pub(crate) fn first_pending(cpu: &CpuRec, words: &[u64]) -> Option<Candidate>
    ensures { result ≡ first_of (candidates_in cpu.now words.now) }
{
    let mut first = None;
    for &word in words {
        if let Some(next) = candidate_in(cpu, word) {
            first = Some(earlier(first, next));
        }
    }
    first
}

fn has_candidate(found: &Candidate, word: u64) -> bool
    ensures { result ≡ has_found found.now word }
{
    let entry = unpack(word);
    entry.state == LrState::Pending
        && entry.id == found.id
        && entry.prio == found.prio
        && entry.group == found.group
}

/// The number of the first list register that has a candidate.
pub(crate) fn place_of_candidate(found: &Candidate, words: &[u64]) -> Option<usize>
    ensures { result ≡ position (has_found found.now) words.now }
{
    words.iter().position(|word| has_candidate(found, *word))
}

fn has_active(id: u32, word: u64) -> bool
    ensures { result ≡ has_active_id id word }
{
    let entry = unpack(word);
    entry.id == id && entry.state.has_active()
}

/// The number of the first list register that has the active interrupt of an INTID.
pub(crate) fn place_of_active(id: u32, words: &[u64]) -> Option<usize>
    ensures { result ≡ position (has_active_id id) words.now }
{
    words.iter().position(|word| has_active(id, *word))
}

/// A list register after its acknowledge.
pub(crate) fn acknowledged(word: u64) -> u64
    ensures { result ≡ acknowledged_word word }
{
    let state = if unpack(word).id < FIRST_LPI {
        LrState::Active
    } else {
        LrState::Invalid
    };
    with_state(word, state)
}

/// A list register after its deactivation.
pub(crate) fn deactivated(word: u64) -> u64
    ensures { result ≡ deactivated_word word }
{
    let state = match unpack(word).state {
        LrState::Invalid | LrState::Active => LrState::Invalid,
        LrState::Pending | LrState::Both => LrState::Pending,
    };
    with_state(word, state)
}
