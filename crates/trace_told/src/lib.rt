//! What a trace says of the moments of a guest, and what its verdict is; and laws of both.
#![tactic(auto)]

mod event;
mod fetch;
mod given;
mod laws;
mod told;
mod verdict;

pub use event::{actor_of, operation_of};
pub use laws::{
    only_reads_are_put_in, parts_can_be, told_ones_are_faultless, traces_are_judged, traces_go_on,
    verdicts_are_one, whole_ones_are_fresh,
};
pub use legal_play::{
    Board, DeviceOp, Event, Frame, GuestOp, GuestShape, GuestSpec, Key, ListOf, Made, Moment,
    NoMemory, Operation, PlainWord, QueueChange, State, Touching, has_bit, is_plain,
    may_all_be_answered, operation_of as operation_in, piece_of,
};
pub use told::{moments_told, target_of};
pub use trace_read::{Act, EventList, ReadRefusal, Trace, TraceCall, TraceEvent, read_trace};
pub use verdict::Verdict;
