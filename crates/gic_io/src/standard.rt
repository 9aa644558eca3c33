//! The process's standard input and output. What they hold no contract can say.

ghost use Rattle.std.specs.Prelude.{◌≡◌, None};

use crate::fault::{Failed, FaultCount};
use crate::sinks::Sink;
use crate::sources::Source;
use std::io::{Input, Print, Read};

/// The standard input. It does not tell what is left, and counts each error.
#[derive(Drop)]
pub struct StdSource<I: Input> {
    reader: I::Reader,
    faults: FaultCount,
}

impl<I: Input> StdSource<I> {
    /// The standard input of this runtime.
    pub fn new(input: &I) -> Self
        ensures left { ⟦<StdSource<I> as Source>⟧.left result ≡ None }
        ensures faults { ⟦<StdSource<I> as Source>⟧.faults result ≡ 0 }
    {
        StdSource {
            reader: input.reader(),
            faults: FaultCount::zero(),
        }
    }
}

impl<I: Input> Source for StdSource<I> {
    ghost left = { λ _. None };

    ghost faults = { λ source. source.faults.count };

    fn read(&mut self, buf: &mut [u8]) -> Result<usize, Failed> {
        match self.reader.read(buf) {
            Ok(count) => Ok(count),
            Err(_) => Err(self.faults.rise()),
        }
    }

    ghost in_range = { λ source. source.faults.in_range };
}

/// The standard output. It does not tell what it has taken, and counts each error. Nothing is kept
/// back: what a call has taken was handed to the system.
#[derive(Drop)]
pub struct StdSink<P: Print> {
    output: P,
    faults: FaultCount,
}

impl<P: Print> StdSink<P> {
    /// The standard output of this runtime, which may be passed as a `&`.
    pub fn new(output: P) -> Self
        ensures taken { ⟦<StdSink<P> as Sink>⟧.taken result ≡ None }
        ensures faults { ⟦<StdSink<P> as Sink>⟧.faults result ≡ 0 }
    {
        StdSink {
            output,
            faults: FaultCount::zero(),
        }
    }
}

impl<P: Print> Sink for StdSink<P> {
    ghost taken = { λ _. None };

    ghost faults = { λ sink. sink.faults.count };

    fn write(&mut self, piece: &[u8]) -> Result<usize, Failed> {
        match self.output.write_some(piece) {
            Ok(0) if !piece.is_empty() => Err(self.faults.rise()),
            Ok(count) => Ok(count),
            Err(_) => Err(self.faults.rise()),
        }
    }

    ghost in_range = { λ sink. sink.faults.in_range };
}
