//! What the commands of an ITS do to LPIs.
/// What a command does to one LPI.
#[derive(Clone, Copy, Debug, PartialEq, Eq, Hash)]
pub enum Part {
    /// Its event is unmapped: nothing of it is left.
    Forget { lpi: u32 },
    /// An event is mapped to it: it is for this vCPU, and its configuration is read.
    Map { lpi: u32, target: u32 },
    /// It is for another vCPU, or for none; it stays pending where it was.
    Retarget { lpi: u32, target: Option<u32> },
    /// It is made pending.
    Raise { lpi: u32 },
    /// It is pending no more.
    Clear { lpi: u32 },
    /// Its configuration is read.
    Configure { lpi: u32 },
}
