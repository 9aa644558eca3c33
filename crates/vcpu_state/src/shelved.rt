//! A vCPU that stands on no PE.
use gic_ich::CpuRec;

/// A vCPU that stands on no PE. It holds no interrupt.
#[derive(Debug, PartialEq, Eq, Drop)]
pub struct Shelved {
    /// The number of the guest, from 0.
    pub guest: u32,
    /// The number of the vCPU in its guest, from 0.
    pub vcpu: u32,
    /// The record of its CPU interface.
    pub cpu: CpuRec,
    /// The number of its next step, from 0.
    pub next: u32,
}
