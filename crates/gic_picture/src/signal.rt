//! Whether an interrupt is signalled to a vCPU.
ghost use Rattle.std.specs.Prelude.{◌≡◌, ◌<◌};
ghost use Rattle.ideal_guest.specs.Sound.{IsSound};
ghost use Rattle.gic_picture.specs.Marks.{is_signalled as is_signalled_to};

use gic_ideal::IdealGuest;
use ideal_guest::Group;

/// Whether an interrupt of a group is signalled to the vCPU.
pub(crate) fn is_signalled(guest: &IdealGuest, vcpu: u32, group: Group) -> bool
    requires sound { IsSound guest.now }
    requires there { vcpu < guest.now.shape.vcpus }
    ensures { result ≡ is_signalled_to group guest.now vcpu }
{
    guest.answered(group, vcpu).is_some()
}
