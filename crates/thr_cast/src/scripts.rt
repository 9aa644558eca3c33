//! What the steps of a scenario give each actor to do.
ghost use Rattle.std.specs.Prelude.{◌≡◌, IfOk};
ghost use Rattle.thr_trip.specs.Script.{vcpu_ops, device_ops};

use guest_end::{DeviceOp, GuestOp, ListOf, Step};
use std::alloc::{AllocError, Global};

/// The operations of a vCPU, in order. An error where memory for them is refused.
pub(crate) fn vcpu_script(
    alloc: Global,
    steps: &[Step],
    of_guest: u32,
    of_vcpu: u32,
) -> Result<ListOf<GuestOp>, AllocError>
    ensures { IfOk result (λ script. script ≡ vcpu_ops of_guest of_vcpu steps.now) }
{
    let mut script = ListOf::new(alloc);
    for step in steps {
        if let Step::Vcpu { guest, vcpu, op } = *step
            && guest == of_guest
            && vcpu == of_vcpu
        {
            script.push(op)?;
        }
    }
    Ok(script)
}

/// The operations of a device, in order. An error where memory for them is refused.
pub(crate) fn device_script(
    alloc: Global,
    steps: &[Step],
    of_guest: u32,
    of_device: u32,
) -> Result<ListOf<DeviceOp>, AllocError>
    ensures { IfOk result (λ script. script ≡ device_ops of_guest of_device steps.now) }
{
    let mut script = ListOf::new(alloc);
    for step in steps {
        if let Step::Device { guest, device, op } = *step
            && guest == of_guest
            && device == of_device
        {
            script.push(op)?;
        }
    }
    Ok(script)
}
