//! How the registers of a frame take an access (IHI 0069, "GIC memory-mapped register access").
#![tactic(auto)]

mod bank;
mod half;
mod identity;
mod line;
mod part;
mod parts;

pub use bank::{Access, Bank, Half};
pub use floor_words::{
    Field, Group, GuestShape, Irq, Key, Kind, PRIORITY_STEP, Route, SPI_STEP, has_bit, pending,
    put_bit, target_in,
};
pub use identity::{IIDR, PIDR2, identity_is_fixed};
pub use line::{Found, Line, find};
pub use part::{access_of, part_bits, parts_in};
pub use parts::{joining_undoes_cutting, part_in, with_part};
