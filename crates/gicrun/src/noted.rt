//! A source that keeps what is read of another.
ghost use Rattle.std.specs.Prelude.{◌≡◌};

use gic_top::{Failed, Source};
use std::alloc::Global;

/// A source that gives what another gives, and keeps it, where there is memory for that.
#[derive(Drop)]
pub(crate) struct Noted<S: Source> {
    source: S,
    /// All that was read, unless memory was refused for some of it.
    bytes: Option<Vec<u8>>,
}

impl<S: Source> Noted<S> {
    /// A source over another, of which nothing was read. It takes no memory.
    pub(crate) fn new(alloc: Global, source: S) -> Self {
        Noted {
            source,
            bytes: Some(Vec::new(alloc)),
        }
    }

    /// All that was read, where it was kept.
    pub(crate) fn bytes(&self) -> Option<&[u8]> {
        self.bytes.as_deref()
    }

    /// Keeps bytes, or nothing from now on where memory is refused.
    fn note(&mut self, piece: &[u8])
        ensures { self.new.source ≡ self.old.source }
    {
        let Some(bytes) = &mut self.bytes else {
            return;
        };
        if bytes.extend_from_slice(piece).is_err() {
            self.bytes = None;
        }
    }
}

impl<S: Source> Source for Noted<S> {
    ghost left = { λ noted. S.left noted.source };

    ghost faults = { λ noted. S.faults noted.source };

    fn read(&mut self, buf: &mut [u8]) -> Result<usize, Failed> {
        let count = self.source.read(buf)?;
        self.note(&buf[..count]);
        Ok(count)
    }

    ghost in_range = { λ noted. S.in_range noted.source };
}
