//! A source and a sink in memory that never fail.

ghost use Rattle.std.specs.Prelude.{◌≡◌, ℕ, [], Some, None, MatchOption, Ok, min, length, take, ◌++◌, IfOk};
ghost use Rattle.gic_io.specs.Sink.{Grew};

use crate::fault::Failed;
use crate::sinks::Sink;
use crate::sources::Source;
use crate::unread::Unread;
use std::alloc::Global;

/// Bytes in memory, whose reading never fails.
#[derive(Debug, Drop)]
pub struct SureSource {
    unread: Unread,
}

impl SureSource {
    /// The source of these bytes. It takes no memory.
    pub fn of(bytes: Vec<u8>) -> Self
        ensures left { ⟦<SureSource as Source>⟧.left result ≡ Some bytes.items }
        ensures faults { ⟦<SureSource as Source>⟧.faults result ≡ 0 }
    {
        SureSource {
            unread: Unread::of(bytes),
        }
    }
}

impl Source for SureSource {
    ghost use Rattle.std.proofs.Common.{lit<};

    ghost left = { λ source. Some source.unread };

    ghost faults = { λ _. 0 };

    ghost use Rattle.gic_io.specs.Sure.{sure_left};

    // A call gives all that `buf` has room for, or all that is left, and never fails.
    fn read(&mut self, buf: &mut [u8]) -> Result<usize, Failed>
        ensures count { result ≡ Ok (min (length buf.old) (length (sure_left self.old))) }
        ensures next { IfOk result (λ count.
            sure_left self.old ≡ take count buf.new ++ sure_left self.new) }
    {
        Ok(self.unread.read(buf, buf.len()))
    }

    ghost in_range = { λ _. lit< tt };
}

/// Bytes taken into memory, which never fails. Where there is no memory for them they are taken all
/// the same, and from then on the sink does not tell what it has taken.
#[derive(Debug, Drop)]
pub struct SureSink {
    bytes: Option<Vec<u8>>,
}

impl SureSink {
    /// A sink that has taken nothing. It takes no memory.
    pub fn new(alloc: Global) -> Self
        ensures taken { ⟦<SureSink as Sink>⟧.taken result ≡ Some [] }
        ensures faults { ⟦<SureSink as Sink>⟧.faults result ≡ 0 }
    {
        SureSink {
            bytes: Some(Vec::new(alloc)),
        }
    }

    /// The bytes taken so far, where the sink tells them.
    pub fn taken(&self) -> Option<&[u8]>
        ensures { MatchOption result
            (⟦<SureSink as Sink>⟧.taken self.now ≡ None)
            (λ bytes. ⟦<SureSink as Sink>⟧.taken self.now ≡ Some bytes.now) }
    {
        match &self.bytes {
            Some(bytes) => Some(bytes.as_slice()),
            None => None,
        }
    }
}

impl Sink for SureSink {
    ghost use Rattle.std.proofs.Common.{lit<};
    ghost use Rattle.std.specs.Option.{option_map};

    ghost taken = { λ sink. option_map (λ bytes. bytes.items) sink.bytes };

    ghost faults = { λ _. 0 };

    ghost use Rattle.gic_io.specs.Sure.{sure_taken};

    // A call takes the whole piece, and never fails. A sink that no longer tells what it has taken never
    // tells it again.
    fn write(&mut self, piece: &[u8]) -> Result<usize, Failed>
        ensures whole { result ≡ Ok (length piece.now) }
        ensures grew { Grew (sure_taken self.old) (sure_taken self.new) piece.now }
    {
        if let Some(bytes) = &mut self.bytes {
            if bytes.extend_from_slice(piece).is_err() {
                self.bytes = None;
            }
        }
        Ok(piece.len())
    }

    ghost in_range = { λ _. lit< tt };
}
