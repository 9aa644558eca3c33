//! The schedule that is timed.

use gic_top::{
    DeviceOp, Frame, GuestOp, GuestShape, GuestSpec, IccReg, ListOf, Preset, Scenario, Step, Steps,
};
use std::alloc::{AllocError, Global};

/// The SPI that is sent, acknowledged and ended over and over.
const SPI: u32 = 40;

/// The bytes of memory of a guest that has LPIs.
const RAM: u32 = 65536;

/// After so many steps the same come again.
const ROUND: u32 = 16;

/// GICD_ISENABLER1, and the bit of the SPI there.
const ISENABLER1: u32 = 0x104;

const SPI_BIT: u64 = 0x100;

/// A guest of two vCPUs and a device, of which one SPI is enabled, and is for the first vCPU.
fn guest(alloc: Global, spis: u32, lpis: u32) -> Result<GuestSpec, AllocError> {
    let mut presets = ListOf::new(alloc);
    presets.push(Preset {
        id: SPI,
        prio: 0xA0,
        edge: true,
        group: 1,
        to: Some(0),
        vcpu: None,
    })?;
    Ok(GuestSpec {
        shape: GuestShape {
            vcpus: 2,
            spis,
            espis: 0,
            devices: 1,
            lpis,
            ram: if lpis == 0 { 0 } else { RAM },
        },
        on: true,
        presets,
    })
}

/// What the first vCPU or the device does at a place in the round, but for the last place.
fn common(place: u32) -> Step {
    let (reg, write) = match place % 3 {
        0 => {
            return Step::Device {
                guest: 0,
                device: 0,
                op: DeviceOp::Message { spi: SPI },
            };
        }
        1 => (IccReg::Iar1, None),
        _ => (IccReg::Eoir1, Some(u64::from(SPI))),
    };
    Step::Vcpu {
        guest: 0,
        vcpu: 0,
        op: GuestOp::Icc { reg, write },
    }
}

/// The second vCPU enables the SPI, which is so already.
fn seldom() -> Step {
    Step::Vcpu {
        guest: 0,
        vcpu: 1,
        op: GuestOp::Mem {
            frame: Frame::Dist,
            offset: ISENABLER1,
            size: 4,
            write: Some(SPI_BIT),
        },
    }
}

/// So many steps: five times a message, an acknowledge and an end, then a register's write, and so on.
fn steps(alloc: Global, count: u32) -> Result<Steps, AllocError> {
    let mut steps = ListOf::new(alloc);
    for number in 0..count {
        let place = number % ROUND;
        let is_last = place == ROUND - 1;
        steps.push(if is_last { seldom() } else { common(place) })?;
    }
    Ok(steps)
}

/// The schedule of a guest with so many SPIs and LPIs, whose two vCPUs stand on two PEs with four list registers each.
pub(crate) fn scenario(
    alloc: Global,
    spis: u32,
    lpis: u32,
    count: u32,
) -> Result<Scenario, AllocError> {
    let mut guests = ListOf::new(alloc);
    guests.push(guest(alloc, spis, lpis)?)?;
    Ok(Scenario {
        pes: 2,
        lrs: 4,
        guests,
        steps: steps(alloc, count)?,
    })
}
