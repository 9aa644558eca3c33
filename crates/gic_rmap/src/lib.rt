//! The registers of a redistributor (IHI 0069, "The Redistributor register map"): where they are, and what they hold.
#![tactic(auto)]

mod contents;
mod map;

pub use contents::{
    ctlr, enable_lpis_after, pendbaser_after, pendbaser_read, propbaser_after, typer,
};
pub use gic_frame::{Half, IIDR, PIDR2};
pub use map::{Reg, RegRef, decode, lines_are_in_order, parts_are_in_place};
