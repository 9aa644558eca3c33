//! Laws of the ideal controller's guest with all that stands at a CPU interface taken back: moves leave it as it is, and
//! the other events do to it what the eager controller does.
#![tactic(auto)]

mod laws;

pub use laws::{
    accesses_pass_home, events_pass_home, moves_keep_home, worked_accesses_hide_home,
    worked_accesses_show_home,
};
