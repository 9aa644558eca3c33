//! A run that was saved in its middle: the steps that are left, where its vCPUs stand, and the state of each guest.
#![tactic(auto)]

mod name;
mod read;
mod saved;
mod state;

pub use name::Name;
pub use read::is_read;
pub use saved::{Saved, StateList};
pub use scn_base::{
    ADDRESS, ColEnd, ColEnds, DevEnd, DevEnds, DeviceOp, EvtEnd, EvtEnds, Fault, Frame, GuestOp,
    GuestShape, GuestSpec, Guests, IccReg, Key, ListOf, MAX_GROUP, MAX_GUESTS, MAX_LIST_REGISTERS,
    MAX_PES, MAX_PRIORITY, MAX_STEPS, Mode, MovedWire, NoMemory, PRIORITY_STEP, PRIVATE_COUNT,
    PeOp, Pes, Preset, PresetList, SHAPE, Scenario, Standing, Step, Steps, VcpuName, WIRE_LEVEL,
    key_of,
};
pub use state::{
    CpuState, CpuStates, GuestState, ItsState, RamState, RamStates, RecState, RecStates,
    RedistState, RedistStates,
};
