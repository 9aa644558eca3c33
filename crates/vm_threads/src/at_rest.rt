//! Whether the actor of a port is at rest.
ghost use Rattle.std.specs.Prelude.{◌≡◌, ◌↔◌, IsTrue, IsSome, IfSome};
ghost use Rattle.dev_port.specs.Device.{CanCall};
ghost use Rattle.pe_icc.specs.PeLoop.Stay.{IsOff};
ghost use Rattle.vm_threads.specs.Rest.{MayEnter, shelved_at};

use pe_icc::Shelved;
use port_rest::{is_off, is_settled};
use port_seq::CorePort as Port;

/// The vCPU of a port of this guest, by the guest's number, as `enter` takes it. None exactly where the port's actor is a device, or
/// the vCPU is on a PE or in the middle of a call. The count of its operations begins at 0.
pub fn rest<P: Port>(port: &P, guest: u32) -> Option<Shelved>
    requires { (P.seen port.now).number ≡ guest }
    ensures there { IsSome result ↔ MayEnter (P.seen port.now) }
    ensures value { IfSome result (λ vcpu. vcpu ≡ shelved_at (P.seen port.now)) }
    ensures off { IfSome result (λ vcpu. IsOff (P.seen port.now) vcpu) }
{
    let vcpu = port.actor();
    if vcpu >= port.shape().vcpus || !is_off(port.local_ref()) {
        return None;
    }
    Some(Shelved {
        guest,
        vcpu,
        cpu: port.local_ref().cpu,
        next: 0,
    })
}

/// Whether the actor of a port is a device that is in the middle of no call, so that it may make one.
pub fn can_call<P: Port>(port: &P) -> bool
    ensures { IsTrue result ↔ CanCall (P.seen port.now) }
{
    port.actor() >= port.shape().vcpus && is_settled(port.local_ref())
}
