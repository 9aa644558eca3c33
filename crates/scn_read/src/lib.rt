//! How a scenario is read from a JSON value.
#![tactic(auto)]

mod defaults;
mod form;
mod guest;
mod narrow;
mod preset;
mod reading;
mod refusal;
mod step;

pub use defaults::{DEFAULT_DEVICES, DEFAULT_SIZE, DEFAULT_TARGET, DEFAULT_VCPUS};
pub use form::{Form, Row};
pub use guest::{GUEST_FIELDS, counts, read_guest};
pub use json_field::{
    elements_at, flag_at, flag_or, has_only, list_at, number_at, number_or, other_field, pair_at,
    text_at,
};
pub use preset::{Counts, PRIVATE_FIELDS, SHARED_FIELDS};
pub use reading::{SCENARIO_FIELDS, read, steps};
pub use refusal::ReadRefusal;
pub use scn_base::{
    ADDRESS, Answer, Answers, ColEnd, ColEnds, CpuEnd, CpuEnds, DevEnd, DevEnds, DeviceOp, End,
    Ends, EvtEnd, EvtEnds, Fault, Frame, GuestOp, GuestShape, GuestSpec, Guests, IccReg, IrqEnd,
    IrqEnds, ItsEnd, Key, LIMIT, ListOf, LrList, MAX_DEVICES, MAX_ESPIS, MAX_GROUP, MAX_GUESTS,
    MAX_LIST_REGISTERS, MAX_LPIS, MAX_PES, MAX_PRIORITY, MAX_SCENARIO_RAM, MAX_SPIS, MAX_STEPS,
    MAX_VCPUS, Mode, NOT_LOADED, NoMemory, PE_BUSY, PE_STEP, PRIVATE_COUNT, PeOp, Preset,
    PresetList, RunOut, SGI_COUNT, SHAPE, Scenario, Standing, Step, Steps, UNKNOWN_ACTOR,
    UNKNOWN_REGISTER, WIRE_LEVEL, both, first_code, is_list_register_count,
};
