//! Accesses of a vCPU's CPU interface while nobody else acts.
#![tactic(auto)]

mod laws;

pub use laws::{a_vcpu_is_alone, ease_is_up_to_date, lone_accesses_find_all};
