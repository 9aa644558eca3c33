//! Pairs of a key and a value, each key once and in the order of the keys, in a deque that has room for more: a finite map that asks for no
//! memory. A search makes O(log n) comparisons, and a change moves at most one block, of at most half of the pairs.
#![tactic(auto)]

ghost use Rattle.std.specs.Prelude.{◌≡◌, ◌≤◌, ◌<◌, IfNone, find};
ghost use Rattle.std.specs.VecDeque.{deque_len, deque_capacity};
ghost use Rattle.std.specs.List.Sorted.{IsStrictlySortedBy};
ghost use Rattle.std.specs.Map.{lookup, keys_of, remove_entry};
ghost use Rattle.std.specs.BTreeMap.{is_at, insert_entry};
ghost use Rattle.std.specs.Ordering.{is_le};
ghost use Rattle.sorted_pairs.specs.Place.{place_of};

use std::collections::VecDeque;

/// Where a key stands, or as an error where it would.
pub fn place<K: Ord + Copy, V: Copy>(pairs: &VecDeque<(K, V)>, key: K) -> Result<usize, usize>
    requires sorted { IsStrictlySortedBy K.cmp (keys_of pairs.now.items) }
    ensures { result ≡ place_of (K.cmp key) pairs.now.items }
{
    pairs.binary_search_by_key(&key, |&(found, _)| found)
}

/// The value of a key. None exactly where the key has none.
pub fn get<K: Ord + Copy, V: Copy>(pairs: &VecDeque<(K, V)>, key: K) -> Option<V>
    requires sorted { IsStrictlySortedBy K.cmp (keys_of pairs.now.items) }
    ensures { result ≡ lookup (is_at (K.cmp key)) pairs.now.items }
{
    match place(pairs, key) {
        Ok(at) => Some(pairs[at].1),
        Err(_) => None,
    }
}

/// The first pair whose key is not before a key. None exactly where all keys are.
pub fn first_from<K: Ord + Copy, V: Copy>(pairs: &VecDeque<(K, V)>, key: K) -> Option<(K, V)>
    requires sorted { IsStrictlySortedBy K.cmp (keys_of pairs.now.items) }
    ensures { result ≡ find (λ pair. is_le (K.cmp key pair.0)) pairs.now.items }
{
    match place(pairs, key) {
        Ok(at) => Some(pairs[at]),
        Err(at) => pairs.get(at).copied(),
    }
}

/// Gives a key a value, in the place of an older one. A key that had none finds room.
pub fn put<K: Ord + Copy, V: Copy>(pairs: &mut VecDeque<(K, V)>, key: K, value: V)
    requires sorted { IsStrictlySortedBy K.cmp (keys_of pairs.old.items) }
    requires room { IfNone (lookup (is_at (K.cmp key)) pairs.old.items) (deque_len pairs.old < deque_capacity pairs.old) }
    ensures entries { pairs.new.items ≡ insert_entry K.cmp pairs.old.items key value }
    ensures capacity { deque_capacity pairs.old ≤ deque_capacity pairs.new }
{
    match place(pairs, key) {
        Ok(at) => pairs[at].1 = value,
        Err(at) => pairs.insert(at, (key, value)).unwrap(),
    }
}

/// Takes the value of a key. None exactly where it had none.
pub fn take<K: Ord + Copy, V: Copy>(pairs: &mut VecDeque<(K, V)>, key: K) -> Option<V>
    requires sorted { IsStrictlySortedBy K.cmp (keys_of pairs.old.items) }
    ensures value { result ≡ lookup (is_at (K.cmp key)) pairs.old.items }
    ensures entries { pairs.new.items ≡ remove_entry (is_at (K.cmp key)) pairs.old.items }
    ensures unchanged { IfNone result (pairs.new.items ≡ pairs.old.items) }
    ensures capacity { deque_capacity pairs.old ≤ deque_capacity pairs.new }
{
    match place(pairs, key) {
        Ok(at) => {
            let (_, value) = pairs.remove(at).unwrap();
            Some(value)
        }
        Err(_) => None,
    }
}
