//! A vCPU enters a PE.
ghost use Rattle.std.specs.Prelude.{◌≡◌, ◌≤◌, true, IsTrue, None};
ghost use Rattle.port_call.specs.Words.{MAX_LIST_REGISTERS};
ghost use Rattle.port_call.specs.Registers.{HasBinaryPoints};
ghost use Rattle.port_call.specs.Core.{is_vcpu, owes_no_mark, shape_of};
ghost use Rattle.pe_loop.specs.Stay.{IsOff};
ghost use Rattle.pe_loop.specs.Enter.{Scans, IsReady, EndsScan, Enters};

use crate::claims::claim_all;
use crate::scan::{look_round, mark_rest};
use port_call::{CoreStep, Fill, Port};
use vcpu_state::{CpuRec, IchRegs, Loaded, Shelved};

/// A vCPU's scan: it looks for a kick, takes its index, looks at its candidates, and plans over what it found at no
/// interface and not wanted.
fn scan<P: Port>(port: &mut P, vcpu: &Shelved, lrs: u32) -> Fill
    requires off { IsOff (P.seen port.old) vcpu.now }
    requires lrs { 1 ≤ lrs × lrs ≤ MAX_LIST_REGISTERS }
    ensures { Scans (P.seen port.old) (P.seen port.new) lrs result }
{
    port.step(CoreStep::Poll {
        reg: None,
        write: None,
    });
    let chooser = look_round(port, lrs);
    chooser.plan(&port.local_ref().cpu)
}

/// The vCPU with a CPU record on a PE, with the registers that a fill asks for, before it takes an interrupt.
fn ready(vcpu: Shelved, cpu: CpuRec, lrs: u32, fill: &Fill) -> Loaded
    requires points { HasBinaryPoints cpu }
    requires lrs { 1 ≤ lrs × lrs ≤ MAX_LIST_REGISTERS }
    ensures { IsReady vcpu cpu lrs fill.now result }
{
    let loaded = Shelved { cpu, ..vcpu }.load(lrs);
    Loaded {
        regs: IchRegs {
            hcr: fill.hcr,
            ..loaded.regs
        },
        trapping: fill.trapping,
        ..loaded
    }
}

/// Ends a scan: the vCPU marks what is left to itself, and kicks itself where a claim failed.
pub fn end_scan<P: Port>(port: &mut P, failed: bool)
    requires vcpu { is_vcpu (shape_of (P.seen port.old)) (P.seen port.old).actor ≡ true }
    requires marks { IsTrue (owes_no_mark (P.seen port.old).local) }
    ensures { EndsScan (P.seen port.old) (P.seen port.new) failed }
{
    mark_rest(port);
    if failed {
        let vcpu = port.actor();
        port.step(CoreStep::Kick { vcpu });
    }
}

/// Puts a vCPU on a PE with this many list registers (1 to 16). It looks for a kick, takes its candidate index, looks once
/// at each candidate, and claims what the plan chooses of those found at no interface and not wanted; what it could not
/// claim has a list register of 0, and it kicks itself then. The port is the vCPU's, which owes nothing. It takes no memory.
pub fn enter<P: Port>(port: &mut P, vcpu: Shelved, lrs: u32) -> Loaded
    requires off { IsOff (P.seen port.old) vcpu }
    requires lrs { 1 ≤ lrs × lrs ≤ MAX_LIST_REGISTERS }
    ensures { Enters (P.seen port.old) (P.seen port.new) vcpu lrs result }
{
    let fill = scan(port, &vcpu, lrs);
    let cpu = port.local_ref().cpu;
    let mut loaded = ready(vcpu, cpu, lrs, &fill);
    let failed = claim_all(port, &mut loaded, &fill);
    end_scan(port, failed);
    loaded
}
