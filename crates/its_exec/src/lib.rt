//! The ITS runs its command queue, over the port of the actor that has it.
#![tactic(auto)]

mod command;
mod config;
mod faults;
mod fetch;
mod known;
mod laws;
mod lines;
mod part;
mod queue;
mod sweep;

pub use faults::check;
pub use known::{KnownQueue, look_at_queue};
pub use laws::taken_are_runs;
pub use lines::shut;
pub use port_call::{
    CallTouching as Touching, CmdFault, CoreStep, CtlrWord, DeviceOp, DistReg, DistRegRef, Enables,
    FIRST_LPI, Frame, GuestOp, GuestShape, Half, IIDR, Irq, ItsReg, ItsRegRef, ItsTables, Key,
    Kind, Line, LrList, MemoryPart, Missed, NoMemory, PIDR2, PlainWord, Port, RedistReg,
    RedistRegRef, Table, VcpuWord, WordId, baser, baser_after, cbaser_after, creadr, dist_access,
    dist_ctlr, dist_typer, enable_lpis_after, enabled_in, enables_in, extract, give_turn, has_bit,
    insert, interrupt_count, irq_unpack, its_access, its_ctlr, its_decode as decode, its_typer,
    key_at, look_home, message_intid, offset_in, part_in, part_key, pendbaser_after,
    pendbaser_read, pending_address, place_of_plain, propbaser_after, put_plain, queue_bytes,
    queue_unpack, raise, read_memory, read_part, read_plain, redist_access, redist_ctlr,
    redist_typer, retries, settle, split, take_turn, target_in, touch, touch_seen, with_part,
};
pub use queue::{QueueEnd, move_queue, run_commands, run_queue};
