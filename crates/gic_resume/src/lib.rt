//! Which saved run a JSON value is the image of, and that what is written reads again.
#![tactic(auto)]

mod laws;

pub use gic_save::{Bytes, image, image_value};
pub use laws::{images_have_shape, images_read_back, steps_read_back};
