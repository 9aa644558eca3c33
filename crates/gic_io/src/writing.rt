//! Writing a text to its end.

ghost use Rattle.std.specs.Prelude.{◌≡◌, ℕ, ◌<◌, ◌≤◌, ◌^◌, length, OnOk, OnErr};
ghost use Rattle.gic_io.specs.Faults.{HasRisen};
ghost use Rattle.gic_io.specs.Sink.{Grew, GrewByPrefix};

use crate::fault::Failed;
use crate::sinks::Sink;

/// Writes all of `text`, in as many calls as the sink wants. It stops at the first call that fails.
/// It takes no memory.
pub fn write_all<K: Sink>(sink: &mut K, text: &[u8]) -> Result<(), Failed>
    ensures whole { OnOk result (Grew (K.taken sink.old) (K.taken sink.new) text.now) }
    ensures failed_takes_prefix { OnErr result
        (GrewByPrefix (K.taken sink.old) (K.taken sink.new) text.now) }
    ensures failed_only_where_risen { OnErr result
        (HasRisen (K.faults sink.old) (K.faults sink.new)) }
    ensures never_falls { K.faults sink.old ≤ K.faults sink.new }
    ensures in_range { K.faults sink.new < 2 ^ 64 }
{
    let mut done = 0;
    while done < text.len() {
        let count = sink.write(&text[done..])?;
        done += count;
    }
    Ok(())
}
