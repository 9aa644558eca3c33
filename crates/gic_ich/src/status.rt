//! ICH_MISR (IHI 0069, ICH_MISR_EL2): why there is a maintenance interrupt.
ghost use Rattle.std.specs.Prelude.{◌≡◌, ◌≤◌, ◌<◌, ◌*◌, ◌^◌, length, filter};
ghost use Rattle.std.specs.List.{list_any};
ghost use Rattle.gic_lr.specs.Status.{max_list_registers};
ghost use Rattle.gic_ich.specs.Status.{misr_of, is_valid as is_valid_word, is_pending as is_pending_word, asked, entries_part, groups_part};

use crate::hcr::{
    HCR_EN_BIT, HCR_EOICOUNT_FIELD, HCR_LRENPIE_BIT, HCR_NPIE_BIT, HCR_UIE_BIT, HCR_VGRP0DIE_BIT,
    HCR_VGRP0EIE_BIT, HCR_VGRP1DIE_BIT, HCR_VGRP1EIE_BIT,
};
use crate::regs::IchRegs;
use crate::vmcr::{VENG0, VENG1};
use gic_lr::{LrState, eisr, has_bit, put_bit, unpack};

/// EOI.
const EOI: u32 = 0;
/// U.
const U: u32 = 1;
/// LRENP.
const LRENP: u32 = 2;
/// NP.
const NP: u32 = 3;
/// VGrp0E.
const VGRP0E: u32 = 4;
/// VGrp0D.
const VGRP0D: u32 = 5;
/// VGrp1E.
const VGRP1E: u32 = 6;
/// VGrp1D.
const VGRP1D: u32 = 7;

/// The list register is in use.
fn is_valid(word: u64) -> bool
    ensures { result ≡ is_valid_word word }
{
    unpack(word).state != LrState::Invalid
}

/// The list register is pending, and not active.
fn is_pending(word: u64) -> bool
    ensures { result ≡ is_pending_word word }
{
    unpack(word).state == LrState::Pending
}

fn valid_count(words: &[u64]) -> usize
    ensures { result ≡ length (filter is_valid_word words.now) }
{
    words.iter().filter(|word| is_valid(**word)).count()
}

fn any_pending(words: &[u64]) -> bool
    ensures { result ≡ list_any is_pending_word words.now }
{
    words.iter().any(|word| is_pending(*word))
}

/// The bit of ICH_MISR at `place`: 1 where the bit of ICH_HCR at `asking` asks for it, and it happened.
fn bit(hcr: u32, asking: u32, happened: bool, place: u32) -> u64
    requires asking { asking < 64 }
    requires place { place < 64 }
    ensures value { result ≡ asked hcr asking happened * 2 ^ place }
    ensures bound { result ≤ 2 ^ place }
{
    put_bit(has_bit(u64::from(hcr), asking) && happened, place)
}

/// The bits of ICH_MISR that the list registers and EOIcount make.
fn entries_status(regs: &IchRegs) -> u64
    requires { regs.now.n ≤ max_list_registers }
    ensures value { result ≡ entries_part regs.now }
    ensures bound { result < 2 ^ 4 }
{
    let hcr = regs.hcr;
    let listed = regs.listed();
    let is_counted = HCR_EOICOUNT_FIELD.of(u64::from(hcr)) != 0;
    put_bit(eisr(listed) != 0, EOI)
        + bit(hcr, HCR_UIE_BIT, valid_count(listed) <= 1, U)
        + bit(hcr, HCR_LRENPIE_BIT, is_counted, LRENP)
        + bit(hcr, HCR_NPIE_BIT, !any_pending(listed), NP)
}

/// The bits of ICH_MISR that the enables of the groups make.
fn groups_status(hcr: u32, vmcr: u32) -> u64
    ensures value { result ≡ groups_part hcr vmcr }
    ensures bound { result ≤ 240 }
{
    let group_0 = has_bit(u64::from(vmcr), VENG0);
    let group_1 = has_bit(u64::from(vmcr), VENG1);
    bit(hcr, HCR_VGRP0EIE_BIT, group_0, VGRP0E)
        + bit(hcr, HCR_VGRP0DIE_BIT, !group_0, VGRP0D)
        + bit(hcr, HCR_VGRP1EIE_BIT, group_1, VGRP1E)
        + bit(hcr, HCR_VGRP1DIE_BIT, !group_1, VGRP1D)
}

/// ICH_MISR: why there is a maintenance interrupt. All bits are 0 while ICH_HCR.En is 0.
pub fn misr(regs: &IchRegs) -> u8
    requires { regs.now.n ≤ max_list_registers }
    ensures { result ≡ misr_of regs.now }
{
    if !has_bit(u64::from(regs.hcr), HCR_EN_BIT) {
        return 0;
    }
    (entries_status(regs) + groups_status(regs.hcr, regs.vmcr)) as u8
}
