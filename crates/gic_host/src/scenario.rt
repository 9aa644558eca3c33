//! What is run.

use crate::link::LinkList;
use crate::step::HostStepList;

/// The most vCPUs, of which there is at least one.
pub const MAX_VCPUS: u32 = 8;
/// The most links.
pub const MAX_LINKS: usize = 64;
/// The most steps.
pub const MAX_STEPS: usize = 100_000;

/// vCPUs that take one PE in turn, with the physical interrupts that are linked to theirs.
#[derive(Debug, Drop)]
pub struct HostScenario {
    /// vCPUs, 1 to 8. vCPU 0 is loaded as the run begins.
    pub vcpus: u32,
    /// List registers of the PE, 1 to 16.
    pub lrs: u32,
    /// At most 64 links.
    pub links: LinkList,
    /// At most 100000 steps.
    pub steps: HostStepList,
}
