//! The records of a guest's interrupts, with an index of those that are pending: who looks for the first interrupt passes over all others.
#![tactic(auto)]

ghost use Rattle.std.specs.Prelude.{◌≡◌, ◌≤◌, ◌<◌, length, IfOk, IfNone, slice_index, slice_set};
ghost use Rattle.std.specs.VecDeque.{deque_len, deque_capacity};
ghost use Rattle.std.specs.List.Sorted.{IsStrictlySortedBy};
ghost use Rattle.std.specs.Map.{lookup, keys_of};
ghost use Rattle.std.specs.BTreeMap.{is_at};
ghost use Rattle.std.specs.Ordering.{nat_cmp};
ghost use Rattle.irq_records.specs.Pending.{pending_places};
ghost use Rattle.irq_records.specs.Index.{marked};

use floor_words::{Irq, ListOf, pending};
use sorted_pairs::{put, take};
use std::alloc::{AllocError, Global};
use std::collections::VecDeque;
use std::marker::Model;

/// A place is in an index, or is not.
fn mark(index: &mut VecDeque<(usize, ())>, place: usize, is_pending: bool)
    requires sorted { IsStrictlySortedBy nat_cmp (keys_of index.old.items) }
    requires room { IfNone (lookup (is_at (nat_cmp place)) index.old.items) (deque_len index.old < deque_capacity index.old) }
    ensures entries { index.new.items ≡ marked index.old.items place is_pending }
    ensures capacity { deque_capacity index.old ≤ deque_capacity index.new }
{
    if is_pending {
        put(index, place, ());
    } else {
        take(index, place);
    }
}

/// The records of a guest's interrupts, by their places in key order. A contract that names them speaks of the list of records. The index costs a
/// change O(log n) comparisons and no memory.
#[derive(Drop)]
pub struct IrqRecords {
    records: ListOf<Irq>,
    // The places of the interrupts that are pending.
    index: VecDeque<(usize, ())>,
}

impl Model for IrqRecords {
    ghost use Rattle.std.specs.Prelude.{List};
    ghost use Rattle.std.specs.VecDeque.{deque_capacity};
    ghost use Rattle.floor_words.specs.Words.{Irq};
    ghost use Rattle.irq_records.specs.Index.{IsKept};

    ghost Value = { List Irq };

    ghost view = { λ r. r.records };

    ghost invariant = { λ r. IsKept r.records r.index.items (deque_capacity r.index) };
}

impl IrqRecords {
    /// The records of a list, in its order. `AllocError` where memory for the index is refused; no other call asks for any.
    pub fn of(alloc: Global, records: ListOf<Irq>) -> Result<IrqRecords, AllocError>
        ensures { IfOk result (λ made. made ≡ records) }
    {
        let mut index = VecDeque::with_capacity(alloc, records.len())?;
        for place in 0..records.len() {
            mark(&mut index, place, pending(&records.as_slice()[place]));
        }
        Ok(IrqRecords { records, index })
    }

    /// How many interrupts there are.
    pub fn len(&self) -> usize
        ensures { result ≡ length self.now }
    {
        self.records.len()
    }

    /// All records.
    pub fn as_slice(&self) -> &[Irq]
        ensures { result.now ≡ self.now }
    {
        self.records.as_slice()
    }

    /// Puts a record in the place of the one at a place, which has to be there.
    pub fn set(&mut self, place: usize, irq: Irq)
        requires there { place < length self.old }
        ensures { self.new ≡ slice_set self.old place irq }
    {
        mark(&mut self.index, place, pending(&irq));
        self.records.set(place, irq);
    }

    /// How many interrupts are pending.
    pub fn pending_count(&self) -> usize
        ensures { result ≡ length (pending_places self.now) }
    {
        self.index.len()
    }

    /// The place of a pending interrupt, of which so many come before it. There have to be more than so many.
    pub fn pending_at(&self, before: usize) -> usize
        requires there { before < length (pending_places self.now) }
        ensures { result ≡ slice_index (pending_places self.now) before }
    {
        self.index[before].0
    }
}
