//! Where bytes come from.

ghost use Rattle.std.specs.Prelude.{◌≡◌, ℕ, ◌<◌, ◌≤◌, ◌^◌, List, [], length, take, IfOk, OnOk, OnErr, IfSome, OnSome, IsSome};
ghost use Rattle.std.specs.declared.option.Option.{Option};
ghost use Rattle.gic_io.specs.Faults.{HasRisen};
ghost use Rattle.gic_io.specs.Source.{HasRead};

use crate::fault::Failed;

/// Something that is read from its start to its end.
pub trait Source {
    /// The bytes not yet read, or none where the object does not tell them.
    ghost left: { Self → Option (List ℕ) };

    /// How many calls have failed.
    ghost faults: { Self → ℕ };

    /// Reads the next bytes into the front of `buf`, and says how many they are. None in a `buf`
    /// that has room is the end of the input. What `buf` holds behind them is not said, nor what
    /// is lost of the input by a call that fails.
    fn read(&mut self, buf: &mut [u8]) -> Result<usize, Failed>
        ensures within { IfOk result (λ count. count ≤ length buf.old) }
        ensures next { IfOk result (λ count.
            HasRead (left self.old) (left self.new) (take count buf.new)) }
        ensures told { OnSome (left self.old) (IsSome (left self.new)) }
        ensures end { result ≡ Ok 0 → 0 < length buf.old →
            IfSome (left self.new) (λ rest. rest ≡ []) }
        ensures never_falls { faults self.old ≤ faults self.new }
        ensures failed_only_where_risen { OnErr result
            (HasRisen (faults self.old) (faults self.new)) };

    /// The count of faults is that of a `u64`, which stands still at its greatest value.
    ghost in_range: { (source : Self) → faults source < 2 ^ 64 };
}
