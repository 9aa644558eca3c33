//! The image of a saved run: one line of JSON that has the whole state.
#![tactic(auto)]

mod cell;
mod guest;
mod rows;
mod step;
mod whole;

pub use whole::{Bytes, image, image_value};
