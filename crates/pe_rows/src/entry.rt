//! How a vCPU enters a PE in the tests.
ghost use Rattle.std.specs.Prelude.{◌≡◌, IfSome};
ghost use Rattle.pe_icc.specs.PeLoop.Stay.{IsUp};

use pe_icc::{Loaded, Port, Shelved, enter};
use port_rest::is_off;

/// The vCPU that is told, of the first guest, enters a PE with this many list registers. None where it may not.
pub(crate) fn enter_told<P: Port>(port: &mut P, lrs: u32) -> Option<Loaded>
    requires { (P.seen port.old).number ≡ 0 }
    ensures { IfSome result (λ vcpu. IsUp (P.seen port.new) vcpu) }
{
    let vcpu = port.actor();
    if vcpu >= port.shape().vcpus || !is_off(port.local_ref()) || !(1..=16).contains(&lrs) {
        return None;
    }
    let vcpu = Shelved {
        guest: 0,
        vcpu,
        cpu: port.local_ref().cpu,
        next: 0,
    };
    Some(enter(port, vcpu, lrs))
}
