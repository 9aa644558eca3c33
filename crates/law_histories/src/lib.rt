//! Laws of every history of the ideal controller: whatever its actors do, and in whatever order their events come.
#![tactic(auto)]

mod laws;

pub use laws::{
    bases_are_held, enables_agree, latches, sync_holds, targets_stand, worked_messages_merge,
    worked_queue_is_synced, worked_reads_count, worked_write_is_half_done,
};
