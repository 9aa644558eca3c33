//! ICH_HCR (IHI 0069, ICH_HCR_EL2): what the hypervisor asks of the virtual CPU interface.
ghost use Rattle.std.specs.Prelude.{◌≡◌, ◌^◌};
ghost use Rattle.gic_ich.specs.Hcr.{hcr_en, hcr_uie, hcr_lrenpie, hcr_npie, hcr_vgrp0eie, hcr_vgrp0die, hcr_vgrp1eie, hcr_vgrp1die, hcr_tc, hcr_tall0, hcr_tall1, hcr_tdir, hcr_eoicount};

use gic_lr::Field;

// The number of each bit.

/// En.
pub const HCR_EN_BIT: u32 = 0;
/// UIE.
pub const HCR_UIE_BIT: u32 = 1;
/// LRENPIE.
pub const HCR_LRENPIE_BIT: u32 = 2;
/// NPIE.
pub const HCR_NPIE_BIT: u32 = 3;
/// VGrp0EIE.
pub const HCR_VGRP0EIE_BIT: u32 = 4;
/// VGrp0DIE.
pub const HCR_VGRP0DIE_BIT: u32 = 5;
/// VGrp1EIE.
pub const HCR_VGRP1EIE_BIT: u32 = 6;
/// VGrp1DIE.
pub const HCR_VGRP1DIE_BIT: u32 = 7;
/// TC.
pub const HCR_TC_BIT: u32 = 10;
/// TALL0.
pub const HCR_TALL0_BIT: u32 = 11;
/// TALL1.
pub const HCR_TALL1_BIT: u32 = 12;
/// TDIR.
pub const HCR_TDIR_BIT: u32 = 14;
/// EOIcount: bits [31:27].
pub(crate) const HCR_EOICOUNT_FIELD: Field = Field {
    place: 27,
    width: 5,
};

// The mask of each bit.

/// The virtual CPU interface is on.
pub const HCR_EN: u32 = 1 << HCR_EN_BIT;
/// UIE: a maintenance interrupt where at most one list register is in use.
pub const HCR_UIE: u32 = 1 << HCR_UIE_BIT;
/// LRENPIE: one where an end of interrupt found no list register.
pub const HCR_LRENPIE: u32 = 1 << HCR_LRENPIE_BIT;
/// NPIE: one where no list register is pending.
pub const HCR_NPIE: u32 = 1 << HCR_NPIE_BIT;
/// VGrp0EIE: one while group 0 is enabled.
pub const HCR_VGRP0EIE: u32 = 1 << HCR_VGRP0EIE_BIT;
/// VGrp0DIE: one while group 0 is disabled.
pub const HCR_VGRP0DIE: u32 = 1 << HCR_VGRP0DIE_BIT;
/// VGrp1EIE: one while group 1 is enabled.
pub const HCR_VGRP1EIE: u32 = 1 << HCR_VGRP1EIE_BIT;
/// VGrp1DIE: one while group 1 is disabled.
pub const HCR_VGRP1DIE: u32 = 1 << HCR_VGRP1DIE_BIT;
/// TC: accesses of the registers that both groups share are trapped.
pub const HCR_TC: u32 = 1 << HCR_TC_BIT;
/// TALL0: accesses of the registers of group 0 are trapped.
pub const HCR_TALL0: u32 = 1 << HCR_TALL0_BIT;
/// TALL1: accesses of the registers of group 1 are trapped.
pub const HCR_TALL1: u32 = 1 << HCR_TALL1_BIT;
/// TDIR: writes of DIR are trapped.
pub const HCR_TDIR: u32 = 1 << HCR_TDIR_BIT;
/// One in EOIcount, which counts the ends of interrupt that found no list register.
pub const HCR_EOICOUNT: u32 = 1 << HCR_EOICOUNT_FIELD.place;

/// What is asked while group 1 alone is enabled at the vCPU: maintenance interrupts where group 0 is
/// enabled or group 1 disabled.
pub const HCR_GROUP_1_ALONE: u32 = HCR_EN + HCR_VGRP0EIE + HCR_VGRP1DIE;
/// What is asked where, besides, some deliverable interrupts have no list register: a maintenance interrupt
/// also where none is pending any more.
pub const HCR_GROUP_1_CUT: u32 = HCR_GROUP_1_ALONE + HCR_NPIE;
/// What is asked where not even the active interrupts have a list register each: every access is trapped.
pub const HCR_GROUP_1_TRAPPING: u32 = HCR_GROUP_1_ALONE + HCR_TC + HCR_TALL0 + HCR_TALL1 + HCR_TDIR;

/// A law of the masks: each is the bit of its number alone.
pub fn masks_are_bits()
    ensures en { HCR_EN ≡ 2 ^ hcr_en }
    ensures uie { HCR_UIE ≡ 2 ^ hcr_uie }
    ensures lrenpie { HCR_LRENPIE ≡ 2 ^ hcr_lrenpie }
    ensures npie { HCR_NPIE ≡ 2 ^ hcr_npie }
    ensures vgrp0eie { HCR_VGRP0EIE ≡ 2 ^ hcr_vgrp0eie }
    ensures vgrp0die { HCR_VGRP0DIE ≡ 2 ^ hcr_vgrp0die }
    ensures vgrp1eie { HCR_VGRP1EIE ≡ 2 ^ hcr_vgrp1eie }
    ensures vgrp1die { HCR_VGRP1DIE ≡ 2 ^ hcr_vgrp1die }
    ensures tc { HCR_TC ≡ 2 ^ hcr_tc }
    ensures tall0 { HCR_TALL0 ≡ 2 ^ hcr_tall0 }
    ensures tall1 { HCR_TALL1 ≡ 2 ^ hcr_tall1 }
    ensures tdir { HCR_TDIR ≡ 2 ^ hcr_tdir }
    ensures eoicount { HCR_EOICOUNT ≡ 2 ^ hcr_eoicount }
{}
