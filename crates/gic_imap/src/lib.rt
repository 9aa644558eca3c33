//! The registers of an ITS (IHI 0069, "The ITS register map"): where they are, and what they hold.
#![tactic(auto)]

mod contents;
mod map;

pub use contents::{
    Table, baser, baser_after, cbaser_after, creadr, ctlr, cwriter_after, enabled_in, offset_in,
    queue_bytes, retries, typer,
};
pub use gic_frame::{Half, IIDR, PIDR2};
pub use map::{Reg, RegRef, decode, lines_are_in_order};
