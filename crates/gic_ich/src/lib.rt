//! The registers of a PE's virtual CPU interface, as the hypervisor has them.
#![tactic(auto)]

mod hcr;
mod regs;
mod status;
mod vmcr;

pub use gic_lr::{
    Back, FIRST_ESPI, FIRST_LPI, Field, Frame, GuestOp, Held, HeldIrq, IccReg, Key, Kind, LrEntry,
    LrState, MAX_ESPIS, MAX_LIST_REGISTERS, NoMemory, has_bit, irq_pack, irq_unpack, key_of,
    pack as lr_pack, pending, target_in, unpack as lr_unpack, with_state,
};
pub use gic_prio::{
    Candidate, CpuRec, FIRST_SPECIAL, Group, Irq, Route, SPURIOUS, acknowledged, cpu_written,
    deliverable, earlier, highest_pending, intid_deactivated, level_activated, listens, read_plain,
};
pub use hcr::{
    HCR_EN, HCR_EN_BIT, HCR_EOICOUNT, HCR_GROUP_1_ALONE, HCR_GROUP_1_CUT, HCR_GROUP_1_TRAPPING,
    HCR_LRENPIE, HCR_LRENPIE_BIT, HCR_NPIE, HCR_NPIE_BIT, HCR_TALL0, HCR_TALL0_BIT, HCR_TALL1,
    HCR_TALL1_BIT, HCR_TC, HCR_TC_BIT, HCR_TDIR, HCR_TDIR_BIT, HCR_UIE, HCR_UIE_BIT, HCR_VGRP0DIE,
    HCR_VGRP0DIE_BIT, HCR_VGRP0EIE, HCR_VGRP0EIE_BIT, HCR_VGRP1DIE, HCR_VGRP1DIE_BIT, HCR_VGRP1EIE,
    HCR_VGRP1EIE_BIT, masks_are_bits,
};
pub use regs::{IchRegs, vtr};
pub use status::misr;
pub use vmcr::{cpu_of, vmcr_of, vmcr_with};
