//! What the list registers tell together.
ghost use Rattle.std.specs.Prelude.{◌≡◌, ◌≤◌, length};
ghost use Rattle.gic_lr.specs.Status.{max_list_registers, bits_where, is_empty as is_empty_word, has_ended};

use crate::entry::{LrState, unpack};

fn is_empty(word: u64) -> bool
    ensures { result ≡ is_empty_word word }
{
    let entry = unpack(word);
    entry.state == LrState::Invalid && (entry.hw.is_some() || !entry.eoi)
}

fn ended(word: u64) -> bool
    ensures { result ≡ has_ended word }
{
    let entry = unpack(word);
    entry.state == LrState::Invalid && entry.hw.is_none() && entry.eoi
}

/// ICH_ELRSR: bit n is 1 where list register n is free: State 0, and HW 1 or EOI 0.
pub fn elrsr(lrs: &[u64]) -> u16
    requires { length lrs.now ≤ max_list_registers }
    ensures { result ≡ bits_where is_empty_word lrs.now }
{
    let mut bits = 0;
    for (place, &word) in lrs.iter().enumerate() {
        if is_empty(word) {
            bits += 1 << place;
        }
    }
    bits
}

/// ICH_EISR: bit n is 1 where list register n asks for an end of interrupt to be seen: State 0, HW 0 and
/// EOI 1.
pub fn eisr(lrs: &[u64]) -> u16
    requires { length lrs.now ≤ max_list_registers }
    ensures { result ≡ bits_where has_ended lrs.now }
{
    let mut bits = 0;
    for (place, &word) in lrs.iter().enumerate() {
        if ended(word) {
            bits += 1 << place;
        }
    }
    bits
}
