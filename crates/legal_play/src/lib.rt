//! A plain program that keeps, as a list of moments goes on, which interrupts wait for an answer and what each actor made in its call: fresh at an
//! acknowledge with no look ahead.
#![tactic(auto)]

mod answer;
mod board;
mod laws;
mod may;
mod passed;
mod pieces;
mod waiting;

pub use answer::{may_all_be_answered, operation_of};
pub use board::Board;
pub use history_play::{
    CallFound, DeviceOp, Event, Frame, GuestOp, GuestShape, GuestSpec, Key, ListOf, Made, Moment,
    NoMemory, Operation, Place, PlainWord, QueueChange, State, Table, Touching, Track, baser,
    baser_after, can_happen, creadr, dist_ctlr, extract, has_bit, is_beside, is_plain, its_ctlr,
    queue_address, reads, split, takes_commands,
};
pub use laws::{calls_are_followed, parts_are_all};
pub use may::may_make;
pub use passed::waits_after;
pub use pieces::{no_pieces, note, piece_of};
pub use waiting::Waiting;
