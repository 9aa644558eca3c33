//! The interrupts and the vCPUs of all guests.
ghost use Rattle.std.specs.Prelude.{◌≡◌, ◌≤◌, ◌++◌, All, IfOk, IsTrue, OnOk, length, map};
ghost use Rattle.std.specs.List.{range_with_len};
ghost use Rattle.scn_base.specs.Standing.{vcpu_name, vcpus_from, has_vcpu};
ghost use Rattle.ideal_guest.specs.Words.{IsShape, interrupt_count as count_of};
ghost use Rattle.ideal_guest.specs.Sound.{IsSound};
ghost use Rattle.gic_ideal.specs.Eager.{state_shapes};
ghost use Rattle.gic_picture.specs.Names.{irq_name, names_from, is_there};

use gic_ideal::{IdealGuest, VcpuName};
use ideal_guest::{GuestShape, Key, ListOf, interrupt_count, key_at};
use std::alloc::{AllocError, Global};

/// An interrupt of a guest, by the number of the guest, from 0.
#[derive(Clone, Copy, Debug, PartialEq, Eq, Hash)]
pub struct IrqName {
    pub guest: u32,
    pub key: Key,
}

/// The interrupts of one guest, in key order, after those of the guests before it.
fn add_irqs(guest: u32, shape: &GuestShape, names: &mut ListOf<IrqName>) -> Result<(), AllocError>
    requires { IsShape shape.now }
    ensures { OnOk result (names.new ≡ names.old ++ map (irq_name guest shape.now) (range_with_len 0 (count_of shape.now))) }
{
    for place in 0..interrupt_count(shape) {
        let key = key_at(place, shape);
        names.push(IrqName { guest, key })?;
    }
    Ok(())
}

/// The interrupts of all guests, in order of guest and key.
pub(crate) fn irq_names(alloc: Global, guests: &[IdealGuest]) -> Result<ListOf<IrqName>, AllocError>
    requires few { length guests.now ≤ 4 }
    requires sound { All IsSound guests.now }
    ensures value { IfOk result (λ names. names ≡ names_from 0 (state_shapes guests.now)) }
    ensures there { IfOk result (All (λ name. IsTrue (is_there (state_shapes guests.now) name))) }
{
    let mut names = ListOf::new(alloc);
    for (number, guest) in guests.iter().enumerate() {
        add_irqs(number as u32, &guest.shape, &mut names)?;
    }
    Ok(names)
}

/// The vCPUs of one guest, after those of the guests before it.
fn add_vcpus(guest: u32, shape: &GuestShape, names: &mut ListOf<VcpuName>) -> Result<(), AllocError>
    ensures { OnOk result (names.new ≡ names.old ++ map (vcpu_name guest) (range_with_len 0 shape.now.vcpus)) }
{
    for vcpu in 0..shape.vcpus {
        names.push(VcpuName { guest, vcpu })?;
    }
    Ok(())
}

/// The vCPUs of all guests, in order of guest and number.
pub(crate) fn vcpu_names(
    alloc: Global,
    guests: &[IdealGuest],
) -> Result<ListOf<VcpuName>, AllocError>
    requires { length guests.now ≤ 4 }
    ensures value { IfOk result (λ names. names ≡ vcpus_from 0 (state_shapes guests.now)) }
    ensures there { IfOk result (All (λ name. IsTrue (has_vcpu (state_shapes guests.now) name.guest name.vcpu))) }
{
    let mut names = ListOf::new(alloc);
    for (number, guest) in guests.iter().enumerate() {
        add_vcpus(number as u32, &guest.shape, &mut names)?;
    }
    Ok(names)
}
