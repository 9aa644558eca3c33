//! What the list registers of a vCPU show in every proper run of the core.
#![tactic(auto)]

mod laws;

pub use laws::{
    ends_are_seen, groups_mirrored, level_run_is_behind, none_asserted, registers_stand,
};
