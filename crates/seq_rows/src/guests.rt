//! Guests of a drawn scenario: few vCPUs, and few interrupts that matter.

ghost use Rattle.std.specs.Prelude.{◌<◌, ◌≤◌};

use crate::dice::Dice;
use gic_top::{GuestShape, GuestSpec, Guests, ListOf, Preset, PresetList};
use std::alloc::{AllocError, Global};

/// The priorities that are used.
const PRIORITIES: [u8; 5] = [0x20, 0x80, 0xA0, 0xA0, 0xA8];

/// One of the priorities.
pub(crate) fn priority(dice: &mut Dice) -> u8 {
    PRIORITIES[dice.roll(5) as usize]
}

/// One of SPIs 40 to 43.
pub(crate) fn shared_id(dice: &mut Dice) -> u32
    ensures { result < 64 }
{
    40 + dice.roll_small(4)
}

/// One of SGIs 1 and 5 and PPIs 20 and 27.
pub(crate) fn private_id(dice: &mut Dice) -> u32
    ensures { result < 32 }
{
    match dice.roll(4) {
        0 => 1,
        1 => 5,
        2 => 20,
        _ => 27,
    }
}

/// One of LPIs 8192 to 8196.
pub(crate) fn lpi_id(dice: &mut Dice) -> u32
    ensures { result < 8197 }
{
    8192 + dice.roll_small(5)
}

/// An interrupt that opens enabled, of a guest with so many vCPUs.
fn preset(dice: &mut Dice, vcpus: u32) -> Preset
    requires { 0 < vcpus }
{
    let is_private = dice.is_once_in(3);
    let vcpu = dice.roll_small(vcpus);
    let id = if is_private {
        private_id(dice)
    } else {
        shared_id(dice)
    };
    Preset {
        id,
        prio: priority(dice),
        edge: id < 16 || !dice.is_once_in(3),
        group: if dice.is_once_in(4) { 0 } else { 1 },
        to: if is_private { None } else { Some(vcpu) },
        vcpu: if is_private { Some(vcpu) } else { None },
    }
}

/// A guest of one to three vCPUs, with an ITS once in two times.
fn guest(alloc: Global, dice: &mut Dice) -> Result<GuestSpec, AllocError> {
    let has_its = dice.is_once_in(2);
    let vcpus = 1 + dice.roll_small(3);
    let mut presets: PresetList = ListOf::new(alloc);
    for _ in 0..3 + dice.roll(4) {
        presets.push(preset(dice, vcpus))?;
    }
    Ok(GuestSpec {
        shape: GuestShape {
            vcpus,
            spis: 32,
            espis: 0,
            devices: 1 + dice.roll_small(2),
            lpis: if has_its { 16 } else { 0 },
            ram: if has_its { 65536 } else { 0 },
        },
        on: !dice.is_once_in(10),
        presets,
    })
}

/// One to three guests, mostly one.
pub(crate) fn guests(alloc: Global, dice: &mut Dice) -> Result<Guests, AllocError> {
    let mut all = ListOf::new(alloc);
    for _ in 0..dice.one_of(&[1, 1, 1, 2, 3]) {
        all.push(guest(alloc, dice)?)?;
    }
    Ok(all)
}
