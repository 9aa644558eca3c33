//! The verdict on a trace.

/// Whether a trace can be a record of a guest's actors.
#[derive(Clone, Copy, Debug, PartialEq, Eq, Hash)]
pub enum Verdict {
    /// It can.
    Yes,
    /// It cannot: this is the least number of its first events that cannot.
    No { index: u32 },
}
