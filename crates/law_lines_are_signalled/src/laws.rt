//! Laws of the interrupt lines of vCPUs on PEs.
ghost use Rattle.law_lines_are_signalled.specs.Signalled.{LinesAreSignalled, LooksAreSignalled};

/// A law of every proper run of a good guest, at a moment at which no actor is in a part, and each vCPU has nothing at its interface,
/// or is not kicked, gives nothing back and owes no scan, of a vCPU that is not kicked and may do accesses, out of trap mode: the
/// lines that its interface tells are those that the ideal controller signals, with all that stands at interfaces taken back.
pub fn lines_are_signalled()
    ensures { LinesAreSignalled }
{}

/// A law of such a vCPU in trap mode, with nothing at its interface: where it looks at each word of its index and at each interrupt whose bit it finds there, and
/// each look finds what its word has, the lines that these tell are those that the ideal controller signals, with all that stands at interfaces taken back.
pub fn looks_are_signalled()
    ensures { LooksAreSignalled }
{}
