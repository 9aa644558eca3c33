//! Steps of the vCPUs and the devices of guest 0.
use scn_read::{DeviceOp, Frame, GuestOp, IccReg, Step};

/// A vCPU reads a register of its CPU interface, or writes a value to it.
pub(crate) fn on_register(vcpu: u32, reg: IccReg, write: Option<u64>) -> Step {
    Step::Vcpu {
        guest: 0,
        vcpu,
        op: GuestOp::Icc { reg, write },
    }
}

/// A vCPU reads so many bytes of a frame, or writes a value to them.
pub(crate) fn on_frame(
    vcpu: u32,
    frame: Frame,
    offset: u32,
    size: u32,
    write: Option<u64>,
) -> Step {
    Step::Vcpu {
        guest: 0,
        vcpu,
        op: GuestOp::Mem {
            frame,
            offset,
            size,
            write,
        },
    }
}

/// A device does something.
pub(crate) fn by_device(device: u32, op: DeviceOp) -> Step {
    Step::Device {
        guest: 0,
        device,
        op,
    }
}
