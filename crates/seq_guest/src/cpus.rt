//! The records of CPU interfaces.
ghost use Rattle.std.specs.Prelude.{◌≡◌, ◌++◌, OnOk};
ghost use Rattle.port_seq.specs.Ports.{told};
ghost use Rattle.seq_guest.specs.Guest.{cpus_of};

use guest_end::CpuRecs;
use port_seq::{CorePort as Port, GuestPort};
use std::alloc::AllocError;

/// Adds the records of the CPU interfaces of a guest's vCPUs to a list, by vCPU. An error where memory for them is refused.
pub fn add_cpus(port: &mut GuestPort, cpus: &mut CpuRecs) -> Result<(), AllocError>
    ensures same { told port.new ≡ record (told port.old) { actor = (told port.new).actor } }
    ensures cpus { OnOk result (cpus.new ≡ cpus.old ++ cpus_of (told port.old)) }
{
    for vcpu in 0..port.shape().vcpus {
        port.set_actor(vcpu);
        cpus.push(port.local_ref().cpu)?;
    }
    Ok(())
}
