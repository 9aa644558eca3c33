//! A vCPU leaves its PE and enters it again.
ghost use Rattle.std.specs.Prelude.{◌≤◌};
ghost use Rattle.port_call.specs.Words.{MAX_LIST_REGISTERS};
ghost use Rattle.pe_loop.specs.Again.{LeavesThenEnters};
ghost use Rattle.pe_loop.specs.Stay.{IsOn};

use crate::entry::enter;
use crate::exit::leave;
use port_call::Port;
use vcpu_state::Loaded;

/// Takes a vCPU off its PE, and puts it there again, with as many list registers. The port is the vCPU's, which owes nothing. It
/// takes no memory.
pub fn reenter<P: Port>(port: &mut P, vcpu: Loaded) -> Loaded
    requires on { IsOn (P.seen port.old) vcpu }
    requires lrs { 1 ≤ vcpu.regs.n × vcpu.regs.n ≤ MAX_LIST_REGISTERS }
    ensures { LeavesThenEnters (P.seen port.old) (P.seen port.new) vcpu result }
{
    let lrs = vcpu.regs.n;
    let shelved = leave(port, vcpu);
    enter(port, shelved, lrs)
}
