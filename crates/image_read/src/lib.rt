//! The reading of images.
#![tactic(auto)]

mod field;
mod guest;
mod head;
mod kind;
mod read;
mod rec;
mod row;
mod rows;
mod told;

pub use gic_resume::{Bytes, image, image_value};
pub use json_field::{has_only, list_at, number_of};
pub use read::{BAD_IMAGE, read_image};
pub use saved_check::{
    Fault, GuestShape, GuestSpec, GuestState, Guests, ListOf, NoMemory, Pes, PresetList, SHAPE,
    Saved, Scenario, StateList, Steps, VcpuName, is_valid_run, told as guest_told,
};
pub use scn_read::ReadRefusal;
