//! Pictures of a run: an SVG, and lines of text.
#![tactic(auto)]

mod bands;
mod draw;
mod form;
mod lines;

pub use bands::timeline;
pub use gic_picture::{NoMemory, Scenario};
pub use lines::table;
