//! The memory-mapped accesses of a vCPU that has nothing at its interface, over the port of its guest.
#![tactic(auto)]

mod attempt;
mod call;
mod ctlr;
mod dist;
mod memory;
mod parts;
mod pending;
mod redist;
mod store;

pub use attempt::try_access;
pub use call::{dist_op, memory_op, redist_op};
pub use its_exec::{
    CoreStep, GuestShape, Half, IIDR, ItsReg as Reg, ItsRegRef as RegRef, ItsTables, KnownQueue,
    Missed, NoMemory, PIDR2, PlainWord, Port, QueueEnd, Table, WordId, baser, baser_after,
    cbaser_after, creadr, decode, enabled_in, give_turn, its_access, its_ctlr, its_typer as typer,
    look_at_queue, move_queue, offset_in, place_of_plain, put_plain, queue_bytes,
    queue_unpack as unpack, raise, read_plain, retries, run_commands, run_queue, settle, shut,
    take_turn, touch,
};
