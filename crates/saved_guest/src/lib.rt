//! The guest of the ideal controller that a saved state tells, and which states can have been saved.
#![tactic(auto)]

mod law;

pub use ideal_guest::{
    CpuRec, Enables, Group, IdealGuest, Irq, IrqRecords, ItsTables, PlainWord, Route, SGI_COUNT,
    Table, baser, baser_after, cbaser_after, enables_in, interrupt_count, irqs, key_at,
    pendbaser_after, place_of, place_of_plain, propbaser_after, queue_bytes, target_in,
};
pub use law::valid_states_can_open;
pub use scn_saved::{
    ColEnd, ColEnds, CpuState, CpuStates, DevEnd, DevEnds, DeviceOp, EvtEnd, EvtEnds, Fault, Frame,
    GuestOp, GuestShape, GuestSpec, GuestState, Guests, IccReg, ItsState, Key, ListOf, MAX_GROUP,
    MAX_GUESTS, MAX_LIST_REGISTERS, MAX_PES, MAX_PRIORITY, MAX_STEPS, Mode, MovedWire, NoMemory,
    PRIORITY_STEP, PeOp, Pes, Preset, PresetList, RamState, RamStates, RecState, RecStates,
    RedistState, RedistStates, SHAPE, Saved, Scenario, Standing, StateList, Step, Steps, VcpuName,
    is_read, key_of,
};
