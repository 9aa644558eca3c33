//! A vCPU leaves its PE and enters it again in a call of it.
ghost use Rattle.std.specs.Prelude.{◌≡◌, ◌≤◌};
ghost use Rattle.pe_icc.specs.Amid.{IsSet, debt_of};
ghost use Rattle.pe_icc.specs.Reenter.{Refills};
ghost use Rattle.pe_loop.specs.Core.{is_to_scan as is_to_scan_by};

use pe_loop::{Loaded, Port, misr, reenter};

/// Whether a vCPU is to scan again after an access: a maintenance interrupt is asserted, it is in trap mode, or it took an
/// interrupt to its interface to end it.
fn is_to_scan(vcpu: &Loaded, owing: bool) -> bool
    requires { vcpu.now.regs.n ≤ 16 }
    ensures { result ≡ is_to_scan_by vcpu.now.regs vcpu.now.trapping (debt_of owing) }
{
    misr(&vcpu.regs) != 0 || vcpu.trapping || owing
}

/// Takes a vCPU off its PE after an access, and puts it there again, where it is to scan again.
pub(crate) fn refill<P: Port>(port: &mut P, vcpu: Loaded, owing: bool) -> Loaded
    requires { IsSet (P.seen port.old) vcpu }
    ensures { Refills (P.seen port.old) (P.seen port.new) vcpu result owing }
{
    if is_to_scan(&vcpu, owing) {
        reenter(port, vcpu)
    } else {
        vcpu
    }
}
