//! The bytes in memory that a source has still to give.

ghost use Rattle.std.specs.Prelude.{◌≡◌, ℕ, ◌≤◌, List, ◌++◌, length, take, drop, min, vec_len};

use std::marker::Model;

/// Bytes that are taken from their front. A contract sees those that are left.
#[derive(Debug, Drop)]
pub(crate) struct Unread {
    bytes: Vec<u8>,
    start: usize,
}

impl Model for Unread {
    ghost Value = { List ℕ };

    ghost view = { λ unread. drop unread.start unread.bytes.items };

    ghost invariant = { λ unread. unread.start ≤ vec_len unread.bytes };
}

impl Unread {
    pub(crate) fn of(bytes: Vec<u8>) -> Self
        ensures { result ≡ bytes.items }
    {
        Unread { bytes, start: 0 }
    }

    /// Moves the next bytes to the front of `buf`, at most `most`, and says how many they are.
    pub(crate) fn read(&mut self, buf: &mut [u8], most: usize) -> usize
        ensures count { result ≡ min most (min (length buf.old) (length self.old)) }
        ensures bytes { self.old ≡ take result buf.new ++ self.new }
    {
        let rest = &self.bytes[self.start..];
        let count = most.min(buf.len()).min(rest.len());
        buf[..count].copy_from_slice(&rest[..count]);
        self.start += count;
        count
    }
}
