//! Laws of every run of the core: whatever its actors do, and in whatever order their steps come, it does what the ideal
//! controller may.
#![tactic(auto)]

mod laws;

pub use laws::{
    enables_agree, latches, posts_are_signals, posts_end_as_calls, runs_are_simulated, simulates,
    sync_holds, worked_run_is_history,
};
