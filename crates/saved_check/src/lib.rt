//! Whether a saved run is one that can have been saved, and the standing and the guests that it tells.
#![tactic(auto)]

mod guest;
mod order;
mod records;
mod rows;
mod run;
mod stand;
mod state;
mod tables;

pub use guest::told;
pub use run::is_valid_run;
pub use saved_guest::{
    ColEnd, ColEnds, CpuState, CpuStates, DevEnd, DevEnds, EvtEnd, EvtEnds, Fault, GuestShape,
    GuestSpec, GuestState, Guests, ItsState, Key, ListOf, Mode, NoMemory, Pes, Preset, PresetList,
    RamState, RamStates, RecState, RecStates, RedistState, RedistStates, SHAPE, Saved, Scenario,
    Standing, StateList, Steps, VcpuName,
};
pub use stand::standing;
pub use state::is_valid_state;
