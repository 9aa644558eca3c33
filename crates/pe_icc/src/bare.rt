//! A scan of a vCPU that takes nothing, before it ends an interrupt.
ghost use Rattle.std.specs.Prelude.{◌≡◌, ◌≤◌, ◌^◌, [], IsTrue};
ghost use Rattle.pe_icc.specs.Amid.{IsSet};
ghost use Rattle.pe_icc.specs.Bare.{EntersBare, Gathers};
ghost use Rattle.pe_loop.specs.Stay.{IsOff};

use pe_loop::{CoreStep, Loaded, Port, Shelved, end_scan, leave, look_round};

/// Puts a vCPU on a PE with this many list registers (1 to 16), by a scan that takes nothing to its interface.
fn enter_bare<P: Port>(port: &mut P, vcpu: Shelved, lrs: u32) -> Loaded
    requires off { IsOff (P.seen port.old) vcpu }
    requires lrs { 1 ≤ lrs × lrs ≤ 16 }
    ensures { EntersBare (P.seen port.old) (P.seen port.new) vcpu lrs result }
{
    port.step(CoreStep::Poll {
        reg: None,
        write: None,
    });
    look_round(port, lrs);
    end_scan(port, false);
    let cpu = port.local_ref().cpu;
    Shelved { cpu, ..vcpu }.load(lrs)
}

/// Has a vCPU give back all that it holds, and scan without taking anything.
pub(crate) fn gather<P: Port>(port: &mut P, vcpu: Loaded) -> Loaded
    requires { IsSet (P.seen port.old) vcpu }
    ensures { Gathers (P.seen port.old) (P.seen port.new) vcpu result }
{
    let lrs = vcpu.regs.n;
    let shelved = leave(port, vcpu);
    enter_bare(port, shelved, lrs)
}
