//! The CPU interfaces and GICD_CTLR as a guest opens.
ghost use Rattle.std.specs.Prelude.{◌≡◌, IfOk, replicate};
ghost use Rattle.gic_open.specs.Opening.{opening_cpu as cpu_at_opening, opening_enables as enables_at_opening, cpus_of};

use gic_guest::GuestSpec;
use gic_prio::{CpuRec, ListOf};
use std::alloc::{AllocError, Global};

/// ICC_PMR of a vCPU of a guest that opens on.
pub const OPEN_PMR: u8 = 0xF0;
/// ICC_BPR0 as a vCPU opens: the least binary point that counts.
pub const OPEN_BPR0: u8 = 2;
/// ICC_BPR1 as a vCPU opens: the least binary point that counts.
pub const OPEN_BPR1: u8 = 3;
/// GICD_CTLR.EnableGrp0.
const ENABLE_GROUP_0: u32 = 1 << 0;
/// GICD_CTLR.EnableGrp1.
const ENABLE_GROUP_1: u32 = 1 << 1;

/// The record that a vCPU's CPU interface opens with, in a guest that opens on or off.
pub fn opening_cpu(on: bool) -> CpuRec
    ensures { result ≡ cpu_at_opening on }
{
    CpuRec {
        pmr: if on { OPEN_PMR } else { 0 },
        bpr0: OPEN_BPR0,
        bpr1: OPEN_BPR1,
        cbpr: false,
        eoimode: false,
        en0: false,
        en1: on,
        lpis: false,
        ap0: 0,
        ap1: 0,
    }
}

/// The records of a guest's CPU interfaces as it opens, by vCPU from 0. An error where memory for them is refused.
pub fn cpus(alloc: Global, guest: &GuestSpec) -> Result<ListOf<CpuRec>, AllocError>
    ensures { IfOk result (λ cpus. cpus ≡ cpus_of guest.now) }
{
    let cpus = vec![in alloc; opening_cpu(guest.on); guest.shape.vcpus as usize]?;
    Ok(ListOf::from(cpus))
}

/// The two group enables of GICD_CTLR as a guest opens, at their bits: EnableGrp0 at 0, and EnableGrp1 at 1.
pub fn opening_enables(on: bool) -> u32
    ensures { result ≡ enables_at_opening on }
{
    if on {
        ENABLE_GROUP_0 | ENABLE_GROUP_1
    } else {
        0
    }
}
