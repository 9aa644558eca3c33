//! What every run of the core keeps so that no change of an interrupt is lost on its way to a vCPU.
#![tactic(auto)]

mod laws;

pub use laws::{
    changes_are_owed, copies_are_current, far_ends_are_known, first_comes_first, index_is_complete,
    scans_overlook_none, wants_are_kept,
};
