//! What the PEs of a run on threads pass as they go on.

/// A place that each PE of a run on threads passes before and after each operation of a vCPU. A gate may hold a PE up
/// for a while; it changes nothing else. Threads share it by reference.
pub trait Gate {
    /// A PE, by its number from 0, passes before (turn 2k) or after (turn 2k + 1) the operation that is its k-th, counted
    /// from 0 over all vCPUs that it takes.
    fn pass(&self, pe: u32, turn: u64);
}

/// A gate that holds nobody up.
#[derive(Clone, Copy, Debug, PartialEq, Eq)]
pub struct OpenGate;

impl Gate for OpenGate {
    fn pass(&self, _pe: u32, _turn: u64) {}
}
