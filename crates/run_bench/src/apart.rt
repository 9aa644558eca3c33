//! A schedule of vCPUs that have nothing to do with each other.

use gic_top::{GuestOp, GuestShape, GuestSpec, IccReg, ListOf, Preset, Scenario, Step, Steps};
use std::alloc::{AllocError, Global};

/// How many vCPUs there are, each of which has a PE where steps are done in order.
const VCPUS: u32 = 8;

/// The SGI that each vCPU sends to itself, acknowledges and ends, over and over.
const SGI: u32 = 5;

/// Steps of a vCPU one after the other.
const ROUND: u32 = 3;

/// A guest whose vCPUs listen to the SGI.
fn guest(alloc: Global) -> Result<GuestSpec, AllocError> {
    let mut presets = ListOf::new(alloc);
    for vcpu in 0..VCPUS {
        presets.push(Preset {
            id: SGI,
            prio: 0xA0,
            edge: true,
            group: 1,
            to: None,
            vcpu: Some(vcpu),
        })?;
    }
    Ok(GuestSpec {
        shape: GuestShape {
            vcpus: VCPUS,
            spis: 32,
            espis: 0,
            devices: 0,
            lpis: 0,
            ram: 0,
        },
        on: true,
        presets,
    })
}

/// What a vCPU does at a place in its round: it sends the SGI to itself, acknowledges, and ends it.
fn step(vcpu: u32, place: u32) -> Step {
    let (reg, write) = match place {
        0 => (
            IccReg::Sgi1r,
            Some(u64::from(SGI) << 24 | 1u64 << (vcpu % VCPUS)),
        ),
        1 => (IccReg::Iar1, None),
        _ => (IccReg::Eoir1, Some(u64::from(SGI))),
    };
    Step::Vcpu {
        guest: 0,
        vcpu,
        op: GuestOp::Icc { reg, write },
    }
}

/// So many steps: a round of each vCPU, and so on.
fn steps(alloc: Global, count: u32) -> Result<Steps, AllocError> {
    let mut steps = ListOf::new(alloc);
    for number in 0..count {
        steps.push(step(number / ROUND % VCPUS, number % ROUND))?;
    }
    Ok(steps)
}

/// The schedule, on PEs with four list registers each.
pub(crate) fn scenario(alloc: Global, count: u32) -> Result<Scenario, AllocError> {
    let mut guests = ListOf::new(alloc);
    guests.push(guest(alloc)?)?;
    Ok(Scenario {
        pes: VCPUS,
        lrs: 4,
        guests,
        steps: steps(alloc, count)?,
    })
}
