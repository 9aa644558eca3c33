//! Scenarios: what they are, when one is good, and what a run of one gives.
#![tactic(auto)]

mod fault;
mod judge;
mod pes;
mod scenario;
mod standing;
mod step;

pub use fault::{
    ADDRESS, Fault, LIMIT, NOT_LOADED, PE_BUSY, PE_STEP, SHAPE, UNKNOWN_ACTOR, UNKNOWN_REGISTER,
    WIRE_LEVEL, both, codes_are_fixed, first_code,
};
pub use gic_guest::{
    Actor, Answer, Answers, ColEnd, ColEnds, CpuEnd, CpuEnds, DevEnd, DevEnds, DeviceOp, End, Ends,
    EvtEnd, EvtEnds, FIRST_ESPI, FIRST_SPI, Frame, GuestOp, GuestShape, GuestSpec, Guests, IccReg,
    IrqEnd, IrqEnds, ItsEnd, Key, Kind, ListOf, LrList, MAX_DEVICES, MAX_ESPIS, MAX_GROUP,
    MAX_LIST_REGISTERS, MAX_LPIS, MAX_PRIORITY, MAX_SPIS, MAX_VCPUS, NoMemory, PRIORITY_STEP,
    PRIVATE_COUNT, PeOp, Preset, PresetList, RAM_STEP, RunOut, SGI_COUNT, SPI_STEP, is_good_op,
    is_list_register_count, key_of, pending, target_in, unpack,
};
pub use pes::{Pes, VcpuName, move_pes, opening_pes};
pub use scenario::{
    MAX_GUESTS, MAX_PES, MAX_SCENARIO_RAM, MAX_STEPS, Scenario, Steps, limits_are_fixed,
};
pub use standing::{MovedWire, Shapes, Standing, Wires};
pub use step::{Mode, Step};
