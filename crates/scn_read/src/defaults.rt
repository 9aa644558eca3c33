//! What a scenario says where it does not say it.

/// The PEs where the scenario does not say.
pub(crate) const DEFAULT_PES: u32 = 1;
/// The list registers of a PE where the scenario does not say.
pub(crate) const DEFAULT_LIST_REGISTERS: u32 = 4;
/// A guest's vCPUs where the scenario does not say.
pub const DEFAULT_VCPUS: u32 = 1;
/// A guest's SPIs where the scenario does not say.
pub(crate) const DEFAULT_SPIS: u32 = 32;
/// A guest's extended SPIs where the scenario does not say.
pub(crate) const DEFAULT_ESPIS: u32 = 0;
/// A guest's devices where the scenario does not say.
pub const DEFAULT_DEVICES: u32 = 1;
/// A guest's LPIs where the scenario does not say.
pub(crate) const DEFAULT_LPIS: u32 = 0;
/// A guest's bytes of memory where the scenario does not say.
pub(crate) const DEFAULT_RAM: u32 = 0;
/// A preset's priority where it does not say.
pub(crate) const DEFAULT_PRIORITY: u8 = 160;
/// A preset's group where it does not say.
pub(crate) const DEFAULT_GROUP: u8 = 1;
/// A preset's target vCPU where it does not say.
pub const DEFAULT_TARGET: u32 = 0;
/// The bytes of an access where the step does not say.
pub const DEFAULT_SIZE: u64 = 4;
