//! Which interrupts stand in a PE's list registers while a vCPU is loaded there.
#![tactic(auto)]

mod chooser;
mod fill;
mod laws;
mod offer;
mod ranking;

pub use chooser::{Chooser, fresh};
pub use fill::{Choice, Fill};
pub use gic_ich::vmcr_of;
pub use laws::{
    both_leaves_nothing_out, every_active_is_planned, every_deliverable_is_planned, first_is_first,
    left_out_comes_after, ordered_is_sorting, others_do_not_matter, plan_stands, planned_is_earned,
    planned_once,
};
pub use offer::Offer;
pub use ranking::Ranking;
