//! The list registers that a PE shows.
ghost use Rattle.std.specs.Prelude.{◌≡◌, ◌≤◌, ◌<◌, ◌∷◌, IfOk};
ghost use Rattle.vcpu_refill.specs.Chooser.{StandsFor};
ghost use Rattle.ideal_guest.specs.Ideal.{cpu_at};
ghost use Rattle.gic_ideal.specs.Shown.{offers_of, registers_of};
ghost use Rattle.ideal_guest.specs.Sound.{IsSound};

use ideal_guest::{IdealGuest, interrupt_count, key_at};
use scn_base::{LrList, MAX_LIST_REGISTERS};
use std::alloc::{AllocError, Global};
use vcpu_refill::{Chooser, fresh};

/// ICH_HCR and list registers as one list.
fn listed(alloc: Global, hcr: u32, words: &[u64]) -> Result<LrList, AllocError>
    ensures { IfOk result (λ shown. shown ≡ hcr ∷ words.now) }
{
    let mut shown = LrList::new(alloc);
    shown.push(u64::from(hcr))?;
    for &word in words {
        shown.push(word)?;
    }
    Ok(shown)
}

/// The choice for a vCPU among all interrupts of the guest.
fn chooser(guest: &IdealGuest, lrs: u32, vcpu: u32) -> Chooser
    requires sound { IsSound guest.now }
    requires there { vcpu < guest.now.shape.vcpus }
    requires lrs { 1 ≤ lrs × lrs ≤ MAX_LIST_REGISTERS }
    ensures lrs { result.lrs ≡ lrs }
    ensures vcpu { result.vcpu ≡ vcpu }
    ensures stands { StandsFor result (cpu_at guest.now vcpu) (offers_of guest.now) }
{
    let cpu = guest.cpu(vcpu);
    let mut chooser = fresh(lrs, vcpu);
    for place in 0..interrupt_count(&guest.shape) {
        let key = key_at(place, &guest.shape);
        chooser.offer(key, &guest.irq(key), &cpu);
    }
    chooser
}

/// ICH_HCR and the list registers of a PE with this many of them, 1 to 16, while the vCPU is loaded there.
pub(crate) fn registers(
    alloc: Global,
    guest: &IdealGuest,
    lrs: u32,
    vcpu: u32,
) -> Result<LrList, AllocError>
    requires sound { IsSound guest.now }
    requires there { vcpu < guest.now.shape.vcpus }
    requires lrs { 1 ≤ lrs × lrs ≤ MAX_LIST_REGISTERS }
    ensures { IfOk result (λ shown. shown ≡ registers_of lrs guest.now vcpu) }
{
    let fill = chooser(guest, lrs, vcpu).plan(&guest.cpu(vcpu));
    let words = fill.words();
    listed(alloc, fill.hcr, &words[..lrs as usize])
}
