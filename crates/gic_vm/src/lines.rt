//! The interrupt lines of vCPUs.
ghost use Rattle.std.specs.Prelude.{◌≡◌, ◌<◌};
ghost use Rattle.ideal_guest.specs.Sound.{IsSound};
ghost use Rattle.gic_vm.specs.Lines.{lines_of as lines_at, lines_in, changed_of};
ghost use Rattle.gic_vm.specs.Kept.{AreLinesOf};
ghost use Rattle.gic_vm.specs.Signals.{LinesTellAnswers};

use gic_line::Lines;
use guest_memory::VCPUS;
use ideal_guest::IdealGuest;

/// No line is asserted.
pub(crate) const DOWN: Lines = Lines {
    irq: false,
    fiq: false,
};

/// The lines of a vCPU.
fn lines_of(guest: &IdealGuest, vcpu: u32) -> Lines
    requires sound { IsSound guest.now }
    requires there { vcpu < guest.now.shape.vcpus }
    ensures { result ≡ lines_at guest.now vcpu }
{
    Lines::of(guest.first(vcpu), &guest.cpu(vcpu))
}

/// Puts the lines of each vCPU as they are now in the place of older ones, and answers which vCPUs' differ, as bits.
pub(crate) fn look(guest: &IdealGuest, lines: &mut [Lines; VCPUS]) -> u32
    requires sound { IsSound guest.now }
    ensures lines { AreLinesOf guest.now lines.new }
    ensures changed { result ≡ changed_of (lines_in lines.old) (lines_at guest.now) guest.now.shape.vcpus }
{
    let mut changed = 0;
    for vcpu in 0..guest.shape.vcpus {
        let now = lines_of(guest, vcpu);
        if lines[vcpu as usize] != now {
            changed += 1 << vcpu;
        }
        lines[vcpu as usize] = now;
    }
    changed
}

/// A law of every guest that the ideal controller reaches: IRQ is asserted at a vCPU exactly where its read of IAR1 would answer the INTID of an
/// interrupt, none of the special ones, and FIQ exactly where its read of IAR0 would.
pub fn lines_tell_answers()
    ensures { LinesTellAnswers }
{}
