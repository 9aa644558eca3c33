//! The candidates of a vCPU, in key order.
ghost use Rattle.std.specs.Prelude.{◌≡◌, ◌<◌, ◌≤◌, ◌-◌};
ghost use Rattle.std.specs.List.{find, range_with_len};
ghost use Rattle.port_call.specs.Words.{has_bit};
ghost use Rattle.port_call.specs.Core.{is_cand};
ghost use Rattle.pe_loop.specs.Candidates.{IsFirstBelow, EndsBefore};

use port_call::{CAND_WORDS, Cands};

/// The bits of a word.
const WORD_BITS: u32 = 64;

/// The first bit of a word that is 1, from a bit on: None exactly where there is none.
fn first_bit(word: u64, low: u32) -> Option<u32>
    requires { low < 64 }
    ensures { IsFirstBelow (has_bit word) low 64 result }
{
    let rest = word >> low;
    if rest == 0 {
        return None;
    }
    Some(low + rest.trailing_zeros())
}

/// The first candidate from a bit of the index on, of which so many bits are used: None exactly where there is none.
pub(crate) fn next_candidate(cands: &Cands, from: u32, end: u32) -> Option<u32>
    requires start { from ≤ 6144 }
    requires few { end ≤ 6144 }
    requires used { EndsBefore end cands.now }
    ensures { result ≡ find (is_cand cands.now) (range_with_len from (end - from)) }
{
    let mut low = from % WORD_BITS;
    for word in (from / WORD_BITS) as usize..CAND_WORDS {
        if let Some(bit) = first_bit(cands.words[word], low) {
            return Some(WORD_BITS * word as u32 + bit);
        }
        low = 0;
    }
    None
}
