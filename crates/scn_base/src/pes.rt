//! Which vCPU stands on each PE.
ghost use Rattle.std.specs.Prelude.{◌≡◌, ◌≤◌, ◌++◌, List, IfOk, OnOk, IsTrue, length, map};
ghost use Rattle.std.specs.List.{range_with_len};
ghost use Rattle.scn_base.specs.Standing.{vcpu_name, vcpus_from, opening_pes as pes_at_opening, pes_after, ResidentsExist};
ghost use Rattle.gic_guest.specs.Good.{shapes_of};
ghost use Rattle.scn_base.specs.Good.{is_formed};

use crate::step::{Mode, Step};
use gic_guest::{GuestShape, GuestSpec, ListOf, PeOp};
use std::alloc::{AllocError, Global};

/// A vCPU of the scenario: the number of its guest, and its own in the guest, each from 0.
#[derive(Clone, Copy, Debug, PartialEq, Eq, Hash)]
pub struct VcpuName {
    pub guest: u32,
    pub vcpu: u32,
}

/// Which vCPU stands on each PE, by PE from 0; none where a PE is empty.
pub type Pes = ListOf<Option<VcpuName>>;

/// The vCPUs of one guest, after those of the guests before it.
fn add_vcpus(guest: u32, shape: &GuestShape, names: &mut ListOf<VcpuName>) -> Result<(), AllocError>
    ensures { OnOk result (names.new ≡ names.old ++ map (vcpu_name guest) (range_with_len 0 shape.now.vcpus)) }
{
    for vcpu in 0..shape.vcpus {
        names.push(VcpuName { guest, vcpu })?;
    }
    Ok(())
}

/// The vCPUs of all guests, in order of guest and number.
fn all_vcpus(alloc: Global, guests: &[GuestSpec]) -> Result<ListOf<VcpuName>, AllocError>
    requires { length guests.now ≤ 4 }
    ensures { IfOk result (λ names. names ≡ vcpus_from 0 (shapes_of guests.now)) }
{
    let mut names = ListOf::new(alloc);
    for (guest, spec) in guests.iter().enumerate() {
        add_vcpus(guest as u32, &spec.shape, &mut names)?;
    }
    Ok(names)
}

/// Which vCPU stands on each of `pes` PEs as a scenario opens: on PE 0, 1, .. the vCPUs in order of guest and number,
/// as far as both last. An error where memory for them is refused.
pub fn opening_pes(alloc: Global, pes: u32, guests: &[GuestSpec]) -> Result<Pes, AllocError>
    requires { length guests.now ≤ 4 }
    ensures value { IfOk result (λ residents. residents ≡ pes_at_opening pes (shapes_of guests.now)) }
    ensures pes { IfOk result (λ residents. length residents ≡ pes) }
    ensures exist { IfOk result (ResidentsExist (shapes_of guests.now)) }
{
    let names = all_vcpus(alloc, guests)?;
    let mut residents = Pes::new(alloc);
    for pe in 0..pes {
        residents.push(names.get(pe as usize).copied())?;
    }
    Ok(residents)
}

/// What a step changes of the vCPUs on the PEs: a vCPU enters a PE or leaves one. A step of a PE that is not there
/// changes nothing.
pub fn move_pes(step: &Step, pes: &mut Pes)
    ensures value { pes.new ≡ pes_after step.now pes.old }
    ensures pes { length pes.new ≡ length pes.old }
    ensures exist { (mode : Mode) (shapes : List GuestShape) → IsTrue (is_formed mode (length pes.old) shapes step.now) →
        ResidentsExist shapes pes.old → ResidentsExist shapes pes.new }
{
    let (pe, resident) = match *step {
        Step::Pe {
            pe,
            op: PeOp::Enter { guest, vcpu },
        } => (pe as usize, Some(VcpuName { guest, vcpu })),
        Step::Pe { pe, op: PeOp::Exit } => (pe as usize, None),
        _ => return,
    };
    if pe < pes.len() {
        pes.set(pe, resident);
    }
}
