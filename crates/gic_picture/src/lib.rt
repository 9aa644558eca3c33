//! What a picture of a run shows: the interrupts that have a row, and the state of each, and of each vCPU's CPU interface, after each step of the ideal controller.
#![tactic(auto)]

mod bars;
mod marks;
mod names;
mod picture;
mod rows;
mod signal;
mod steps;

pub use bars::Bar;
pub use gic_ideal::{IdealGuest, Scenario, Step, VcpuName};
pub use marks::{CpuMark, Mark};
pub use names::IrqName;
pub use picture::{Column, MAX_ROWS, Picture, picture_of};
pub use rows::Tally;
pub use scn_base::{DeviceOp, Frame, GuestOp, IccReg, Key, ListOf, NoMemory, PeOp};
