//! Laws of the ITS's translation lines in every run of the core: what lines have once a command has ended was stored there
//! since, so a message whose event was discarded stays out of them.
#![tactic(auto)]

mod laws;

pub use laws::{
    discarded_stay_out, fills_store, lines_are_filled_anew, worked_post_is_its_message,
    worked_run_discards,
};
