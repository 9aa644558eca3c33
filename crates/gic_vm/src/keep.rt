//! What a machine has, for who saves it, and how that is put back.
ghost use Rattle.std.specs.Prelude.{◌≡◌, length};
ghost use Rattle.ideal_guest.specs.Sound.{IsSound};
ghost use Rattle.gic_vm.specs.Calls.{done_by};
ghost use Rattle.gic_vm.specs.Keep.{put_in};

use crate::done::Done;
use crate::lines::look;
use crate::machine::Machine;
use guest_memory::{Bases, VCPUS};
use ideal_guest::IdealGuest;

/// Nothing is done: it says of an array of a register of each vCPU, which another function has, how many there are.
fn each(registers: &[u64; VCPUS])
    ensures { length registers.now ≡ 32 }
{
    let _ = registers;
}

impl Machine {
    /// The guest of the machine under the ideal controller.
    pub fn guest(&self) -> &IdealGuest
        ensures value { result.now ≡ self.now.guest }
        ensures sound { IsSound result.now }
    {
        &self.guest
    }

    /// What the registers keep that tell where the guest has its queue and tables.
    pub fn bases(&self) -> Bases
        ensures value { result ≡ self.now.bases }
        ensures whole { (length result.properties ≡ 32) × (length result.pending ≡ 32) }
    {
        each(&self.bases.properties);
        each(&self.bases.pending);
        self.bases
    }

    /// The machine goes on from another state of its guest, with what its registers kept then that tell where the guest has its queue and tables. Its frames
    /// stay where they are.
    #[tactic(auto, using(crate::proofs::KeptLemmas::kept_after))]
    pub fn put_back(&mut self, guest: IdealGuest, bases: Bases) -> Done
        requires sound { IsSound guest }
        requires shape { guest.shape ≡ self.old.guest.shape }
        ensures done { result ≡ done_by 0 self.old.guest guest }
        ensures machine { self.new ≡ put_in guest bases self.old }
    {
        self.guest = guest;
        self.bases = bases;
        Done {
            value: 0,
            changed: look(&self.guest, &mut self.lines),
        }
    }
}
