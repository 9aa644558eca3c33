//! Laws of the LPIs that the maps of an ITS give no vCPU, under the eager controller.
#![tactic(auto)]

mod laws;

pub use laws::{
    accesses_leave_none, commands_leave_none, devices_leave_none, unmapped_is_for_none,
};
