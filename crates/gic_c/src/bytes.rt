//! Bytes in memory that was taken before.
ghost use Rattle.std.specs.Prelude.{◌≡◌, ◌≤◌, ◌+◌, [], ◌++◌, length, IfOk};
ghost use Rattle.vm_saved.specs.GicVm.GuestMemory.Wants.{most_wanted};

use std::alloc::{AllocError, Global};
use std::marker::Model;
use vm_saved::MOST_WANTED;

/// As many bytes as an access can want.
#[derive(Drop)]
pub(crate) struct Bytes {
    bytes: Vec<u8>,
}

impl Model for Bytes {
    ghost use Rattle.std.specs.Prelude.{List, ℕ, ◌≤◌, vec_capacity};
    ghost use Rattle.vm_saved.specs.GicVm.GuestMemory.Wants.{most_wanted};

    ghost Value = { List ℕ };

    ghost view = { λ b. b.bytes.items };

    ghost invariant = { λ b. most_wanted ≤ vec_capacity b.bytes };
}

impl Bytes {
    /// None yet.
    pub(crate) fn new(alloc: Global) -> Result<Bytes, AllocError>
        ensures { IfOk result (λ bytes. bytes ≡ []) }
    {
        Ok(Bytes {
            bytes: Vec::with_capacity(alloc, MOST_WANTED)?,
        })
    }

    /// All that there are.
    pub(crate) fn as_slice(&self) -> &[u8]
        ensures { result.now ≡ self.now }
    {
        self.bytes.as_slice()
    }

    /// Drops all.
    pub(crate) fn clear(&mut self)
        ensures { self.new ≡ [] }
    {
        self.bytes.clear();
    }

    /// Adds some behind the others. It takes no memory.
    pub(crate) fn push(&mut self, bytes: &[u8])
        requires { length self.old + length bytes.now ≤ most_wanted }
        ensures { self.new ≡ self.old ++ bytes.now }
    {
        // There is room, so it is not refused.
        let _ = self.bytes.extend_from_slice(bytes);
    }
}
