//! The atomic operations of the core over a table of words.
ghost use Rattle.std.specs.Prelude.{◌≡◌, ℕ};
ghost use Rattle.atomic_table.specs.Table.{Me};
ghost use Rattle.port_ops.specs.Ready.{Ready};

use atomic_table::{Play, Seat, Shared, TableRule};
use port_core::Atomic;
use std::marker::PhantomData;

/// What an operation tells its caller.
pub trait Tells<S, V> {
    /// Of the seat before, the word found, and the seat after.
    ghost told: { Me S V → ℕ → Me S V → Type 0 };
}

/// What an operation tells its caller, as a step of the table tells it. No value of it is made.
pub struct Telling<T> {
    marker: PhantomData<T>,
}

impl<S, V, T: Tells<S, V>> Play<S, V> for Telling<T> {
    ghost then = { λ step before found after. T.told before found after };
}

/// Does one atomic operation on the word at a place, through a seat, under any rule that allows the word to become what
/// the operation leaves of it. It answers the word as it was, and takes no memory.
#[inline(always)]
pub fn operate<S, V, K, P: TableRule<S, V, K>, T: Tells<S, V>>(
    table: &Shared<S, V, K, P>,
    seat: &mut Seat<S, V>,
    place: usize,
    atomic: Atomic,
) -> u64
    requires { Ready (P.holds table.now.key) table.now.table_id seat.old place atomic (T.told seat.old.me) }
    ensures table { seat.new.table_id ≡ seat.old.table_id }
    ensures id { seat.new.id ≡ seat.old.id }
    ensures told { T.told seat.old.me result seat.new.me }
{
    match atomic {
        Atomic::Load => table.load::<Telling<T>>(seat, place),
        Atomic::And { mask } => table.fetch_and::<Telling<T>>(seat, place, mask),
        Atomic::Or { mask } => table.fetch_or::<Telling<T>>(seat, place, mask),
        Atomic::Swap { value } => table.swap::<Telling<T>>(seat, place, value),
        Atomic::Exchange { seen, value } => {
            table.compare_exchange::<Telling<T>>(seat, place, seen, value)
        }
    }
}
