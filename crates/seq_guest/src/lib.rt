//! The vCPUs of a guest that take turns in one thread: each enters a PE, leaves it, does operations and shows its list registers,
//! and so do the guest's devices, each through the words of the guest, one operation after the other.
#![tactic(auto)]

mod cpus;
mod device;
mod operate;
mod vcpus;

pub use cpus::add_cpus;
pub use port_seq::SeqPort;
pub use vcpus::Vcpus;
