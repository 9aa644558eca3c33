//! The steps of a scenario.
use gic_guest::{DeviceOp, GuestOp, PeOp};

/// What one actor or PE does.
#[derive(Clone, Copy, Debug, PartialEq, Eq, Hash)]
pub enum Step {
    Vcpu {
        guest: u32,
        vcpu: u32,
        op: GuestOp,
    },
    Device {
        guest: u32,
        device: u32,
        op: DeviceOp,
    },
    Pe {
        pe: u32,
        op: PeOp,
    },
}

/// How a scenario is to be run.
#[derive(Clone, Copy, Debug, PartialEq, Eq, Hash)]
pub enum Mode {
    /// Its steps one after the other.
    Schedule,
    /// Its actors on threads.
    Threads,
}
