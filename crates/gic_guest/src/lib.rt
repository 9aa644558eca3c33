//! The guests: what each has, how it opens, what its vCPUs and devices can do, what a run of them answers and how each ends.
#![tactic(auto)]

mod good;
mod guest;
mod outcome;
mod preset;

pub use gic_ram::{
    Actor, DeviceOp, FIRST_ESPI, FIRST_SPI, Frame, GuestOp, GuestShape, IccReg, Key, Kind, ListOf,
    MAX_DEVICES, MAX_ESPIS, MAX_LIST_REGISTERS, MAX_LPIS, MAX_PRIORITY, MAX_RAM, MAX_SPIS,
    MAX_VCPUS, NoMemory, PRIORITY_STEP, PRIVATE_COUNT, PeOp, RAM_STEP, SGI_COUNT, SPI_STEP,
    interrupt_count, is_list_register_count, key_of, pending, place_of, target_in, unpack,
};
pub use good::{fits, has_frame, is_good_op, is_inside, is_size, is_usable};
pub use guest::{GuestSpec, Guests, PresetList};
pub use outcome::{
    Answer, Answers, ColEnd, ColEnds, CpuEnd, CpuEnds, DevEnd, DevEnds, End, Ends, EvtEnd, EvtEnds,
    IrqEnd, IrqEnds, ItsEnd, LrList, RunOut,
};
pub use preset::{MAX_GROUP, Preset};
