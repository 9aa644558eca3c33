//! A failed call, and the count of failed calls.

ghost use Rattle.std.specs.Prelude.{Some, ◌≡◌, ℕ, ◌<◌, ◌≤◌, ◌^◌};
ghost use Rattle.gic_io.specs.Faults.{HasRisen, one_more};

use std::error::Error;
use std::fmt;

/// A call of a source or a sink failed, and its count of faults rose.
#[derive(Clone, Copy, Debug, PartialEq, Eq)]
pub struct Failed;

impl fmt::Display for Failed {
    ghost use Rattle.std.specs.Prelude.{codes};

    ghost output = { λ _. Some (codes "a read or a write failed") };

    fn fmt<W: fmt::Write>(&self, f: &mut fmt::Formatter<W>) -> fmt::Result {
        write!(f, "a read or a write failed")
    }
}

impl Error for Failed {}

/// How many calls have failed. At the greatest `u64` it stands still.
#[derive(Debug, Drop)]
pub(crate) struct FaultCount {
    count: u64,
    ghost in_range: { count < 2 ^ 64 },
}

impl FaultCount {
    pub(crate) fn zero() -> Self
        ensures { result.count ≡ 0 }
    {
        FaultCount { count: 0 }
    }

    pub(crate) fn get(&self) -> u64
        ensures { result ≡ self.now.count }
    {
        self.count
    }

    /// Counts one failed call.
    pub(crate) fn rise(&mut self) -> Failed
        ensures one_more { self.new.count ≡ one_more self.old.count }
        ensures never_falls { self.old.count ≤ self.new.count }
        ensures risen { HasRisen self.old.count self.new.count }
    {
        self.count = self.count.saturating_add(1);
        Failed
    }
}
