//! When an access of a CPU interface shows the guest with all that stands at interfaces taken back.
#![tactic(auto)]

mod laws;

pub use laws::{
    a_vcpu_finds_all, changes_are_done, stands_as_reached, stays_up_to_date, up_to_date_shows_home,
};
