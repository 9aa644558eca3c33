//! Laws of the bits of a word.
ghost use Rattle.gic_word.specs.CauseBits.{CauseBits, DeviceBits};
ghost use Rattle.gic_word.specs.ReleaseBits.{ReleaseBits};

/// A law of every word: its bit of a cause, set or cleared, sets or clears that cause of its record, and
/// nothing else.
pub fn cause_bits()
    ensures { CauseBits }
{}

/// A law of every word: what a fetch-or of `RAISE` or `WIRE_UP` or a fetch-and of `WIRE_DOWN` does to its
/// record.
pub fn device_bits()
    ensures { DeviceBits }
{}

/// A law of every word: what giving back, activation, deactivation and release do to its record, each by the bits
/// of one atomic step.
pub fn release_bits()
    ensures { ReleaseBits }
{}
