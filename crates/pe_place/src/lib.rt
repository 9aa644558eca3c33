//! Where a vCPU is between two calls, over any port: it enters a PE, leaves it, does operations and shows its list registers there,
//! and answers kicks, each time in whole parts; and an operation of a device.
#![tactic(auto)]

mod device;
mod operate;
mod place;

pub use device::device_op;
pub use operate::operate_on;
pub use pe_op::{Loaded, Shelved, enter, guest_op, leave};
pub use place::{Place, answer_kick, come_back, enter_pe, leave_pe, show_pe, step_aside};
