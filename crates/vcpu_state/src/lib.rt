//! A vCPU off and on a PE, and what the interrupts at its interface bring back when it leaves.
#![tactic(auto)]

mod back;
mod laws;
mod loaded;
mod shelved;

pub use back::fold;
pub use gic_ich::{
    Back as GuestBack, CpuRec, Field, GuestOp, HCR_EN, HeldIrq, IccReg, IchRegs, LrEntry, LrState,
    MAX_LIST_REGISTERS, irq_pack as pack, key_of, misr, pending,
};
pub use laws::each_comes_back;
pub use loaded::Loaded;
pub use shelved::Shelved;
