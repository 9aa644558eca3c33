//! A vCPU on a PE, over the port of its guest: how it enters and leaves.
#![tactic(auto)]

mod again;
mod candidates;
mod claims;
mod entry;
mod exit;
mod scan;

pub use again::reenter;
pub use claims::{Claimed, claim, claim_into};
pub use entry::{end_scan, enter};
pub use exit::leave;
pub use port_call::{
    CAND_WORDS, Choice, CoreStep, Frame, Irq, Key, NoMemory, Offer, Outcome, Port, Targets,
    VcpuWord, WordId, access, has_bit, index_bits, index_words, irq_unpack as unpack, key_of_bit,
    raise, sgi_intid, sgi_targets,
};
pub use scan::look_round;
pub use vcpu_state::{
    Field, GuestOp, HCR_EN, IccReg, IchRegs, Loaded, LrEntry, LrState, MAX_LIST_REGISTERS, Shelved,
    key_of, misr, pending,
};
