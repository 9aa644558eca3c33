//! What a call that has the ITS knows of its next command, and for which vCPUs LPIs were as it began.
ghost use Rattle.std.specs.Prelude.{◌≡◌, ◌<◌, ◌^◌, ℕ, List, Option};
ghost use Rattle.history_commands.specs.Registers.{Maps};
ghost use Rattle.history_commands.specs.Calls.{Happened, queue_address as queue_address_of, word_address as word_address_of, takes_command as takes_command_of, next_offset as next_offset_of};
ghost use Rattle.history_commands.specs.Known.{view_by};
ghost use Rattle.history_commands.specs.Mapped.{target_at as target_in, targets_by};

use crate::its::Its;
use history_calls::{COMMAND_BYTES, FIRST_LPI, Field, ListOf, has_bit, queue_bytes};

/// Enabled, in what GITS_CTLR stores.
const ENABLED: u32 = 0;
/// Valid, in what GITS_CBASER stores.
const VALID: u32 = 63;
/// The address of the queue in what GITS_CBASER stores: bits [51:12].
const ADDRESS: Field = Field {
    place: 12,
    width: 40,
};
/// The bytes of a doubleword.
pub(crate) const DOUBLEWORD_BYTES: u32 = 8;

/// Whether a further command is taken.
pub(crate) fn takes_command(its: Its) -> bool
    ensures { (maps : Maps) (targets : ℕ → Option ℕ) (reads : List Happened) → result ≡ takes_command_of (view_by its maps targets reads) }
{
    has_bit(its.ctlr, ENABLED)
        && has_bit(its.cbaser, VALID)
        && !its.is_stalled
        && u64::from(its.offset) != its.cwriter
}

/// The address of the queue that a GITS_CBASER names.
fn queue_address(cbaser: u64) -> u64
    ensures value { result ≡ queue_address_of cbaser }
    ensures bound { result < 2 ^ 52 }
{
    ADDRESS.in_place(cbaser)
}

/// Where a doubleword of the next command is in memory, by its number from 0.
pub(crate) fn word_address(its: Its, number: u32) -> u64
    requires { number < 4 }
    ensures { (maps : Maps) (targets : ℕ → Option ℕ) (reads : List Happened) → result ≡ word_address_of (view_by its maps targets reads) number }
{
    queue_address(its.cbaser) + u64::from(its.offset) + u64::from(DOUBLEWORD_BYTES * number)
}

/// The offset of the queue after the next command.
pub(crate) fn next_offset(its: Its) -> u32
    ensures { (maps : Maps) (targets : ℕ → Option ℕ) (reads : List Happened) → result ≡ next_offset_of (view_by its maps targets reads) }
{
    let next = u64::from(its.offset) + u64::from(COMMAND_BYTES);
    if next < u64::from(queue_bytes(its.cbaser)) {
        next as u32
    } else {
        0
    }
}

/// The vCPU that an LPI was for, of those that LPIs were for in rising INTID.
fn target_at(targets: &[Option<u32>], id: u32) -> Option<u32>
    ensures { result ≡ target_in targets.now id }
{
    if id < FIRST_LPI {
        return None;
    }
    match targets.get((id - FIRST_LPI) as usize) {
        Some(target) => *target,
        None => None,
    }
}

/// The vCPU that an LPI was for as the command of a number from 0 began.
pub(crate) fn target_of(commands: &[ListOf<Option<u32>>], number: usize, id: u32) -> Option<u32>
    ensures { result ≡ targets_by commands.now number id }
{
    match commands.get(number) {
        Some(targets) => target_at(targets.as_slice(), id),
        None => None,
    }
}
