//! The registers of the distributor (IHI 0069, "The Distributor register map"): where they are, and what they hold.
#![tactic(auto)]

mod contents;
mod map;

pub use contents::{Enables, ctlr, enables_in, message_intid, typer};
pub use gic_frame::{Half, IIDR, PIDR2, part_bits, part_in, with_part};
pub use map::{Reg, RegRef, decode, lines_are_in_order, parts_are_in_place};
