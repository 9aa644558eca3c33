//! Where bytes go.

ghost use Rattle.std.specs.Prelude.{◌≡◌, ℕ, ◌<◌, ◌≤◌, ◌^◌, List, length, take, IfOk, OnErr};
ghost use Rattle.std.specs.declared.option.Option.{Option};
ghost use Rattle.gic_io.specs.Faults.{HasRisen};
ghost use Rattle.gic_io.specs.Sink.{Grew};

use crate::fault::Failed;

/// Something that takes bytes one after the other.
pub trait Sink {
    /// The bytes taken so far, or none where the object does not tell them.
    ghost taken: { Self → Option (List ℕ) };

    /// How many calls have failed.
    ghost faults: { Self → ℕ };

    /// Takes the first bytes of `piece`, and says how many they are: at least one where there is
    /// one. A call that fails takes none.
    fn write(&mut self, piece: &[u8]) -> Result<usize, Failed>
        ensures some { IfOk result (λ count. 0 < length piece.now → 0 < count) }
        ensures within { IfOk result (λ count. count ≤ length piece.now) }
        ensures grew { IfOk result (λ count.
            Grew (taken self.old) (taken self.new) (take count piece.now)) }
        ensures failed_takes_none { OnErr result (taken self.new ≡ taken self.old) }
        ensures never_falls { faults self.old ≤ faults self.new }
        ensures failed_only_where_risen { OnErr result
            (HasRisen (faults self.old) (faults self.new)) };

    /// The count of faults is that of a `u64`, which stands still at its greatest value.
    ghost in_range: { (sink : Self) → faults sink < 2 ^ 64 };
}
