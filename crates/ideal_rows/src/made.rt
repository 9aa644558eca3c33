//! Scenarios of one guest.
use scn_base::{
    DeviceOp, GuestOp, GuestShape, GuestSpec, IccReg, ListOf, Preset, PresetList, Scenario, Step,
    Steps,
};
use std::alloc::{AllocError, Global};

/// An edge-triggered interrupt of group 1 and priority 0xA0, for vCPU 0.
fn preset(id: u32) -> Preset {
    Preset {
        id,
        prio: 0xA0,
        edge: true,
        group: 1,
        to: Some(0),
        vcpu: None,
    }
}

/// A message of device 0.
pub(crate) fn message(spi: u32) -> Step {
    Step::Device {
        guest: 0,
        device: 0,
        op: DeviceOp::Message { spi },
    }
}

/// An access of vCPU 0.
pub(crate) fn access(reg: IccReg, write: Option<u64>) -> Step {
    Step::Vcpu {
        guest: 0,
        vcpu: 0,
        op: GuestOp::Icc { reg, write },
    }
}

/// A guest of this shape with the interrupts of these INTIDs, which makes these steps on one PE with four list registers.
pub(crate) fn scenario(
    alloc: Global,
    shape: GuestShape,
    ids: &[u32],
    made: &[Step],
) -> Result<Scenario, AllocError> {
    let mut presets: PresetList = ListOf::new(alloc);
    for id in ids {
        presets.push(preset(*id))?;
    }
    let mut guests = ListOf::new(alloc);
    guests.push(GuestSpec {
        shape,
        on: true,
        presets,
    })?;
    let steps: Steps = ListOf::from(made.to_vec(alloc)?);
    Ok(Scenario {
        pes: 1,
        lrs: 4,
        guests,
        steps,
    })
}
