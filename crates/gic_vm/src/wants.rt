//! Where the guest has what an access may make the GIC read.
ghost use Rattle.std.specs.Prelude.{◌≡◌, ◌≤◌, IsErr, IfOk, ◌↔◌, None};
ghost use Rattle.guest_memory.specs.Wants.{spans_in, bytes_in, most_wanted};
ghost use Rattle.gic_vm.specs.Mmio.{access_at as access_found, place_at as place_in};
ghost use Rattle.gic_vm.specs.Wants.{wants_of};

use crate::done::NotMine;
use crate::machine::Machine;
use guest_memory::{NO_WANTS, Wants, wanted};

impl Machine {
    /// Where the guest has what an access may make the GIC read, as the machine is now; nothing is done. It is for who has to fetch the guest's memory
    /// before [`Machine::mmio`] with the same arguments, which reads nothing else. Of the configuration tables these are the bytes of all LPIs, since the
    /// commands, which tell what is read of them, are not there yet. All together are at most [`MOST_WANTED`](crate::MOST_WANTED) bytes.
    ///
    /// `NotMine` exactly where that is `NotMine`.
    pub fn wants(
        &self,
        vcpu: u32,
        address: u64,
        size: u32,
        write: Option<u64>,
    ) -> Result<Wants, NotMine>
        ensures wants { IfOk result (λ wants. wants ≡ wants_of self.now (access_found self.now vcpu address size write)) }
        ensures few { IfOk result (λ wants. bytes_in (spans_in wants) ≤ most_wanted) }
        ensures not_mine { IsErr result ↔ (place_in self.now vcpu address ≡ None) }
    {
        match self.find(vcpu, address, size, write)? {
            Some(access) => Ok(wanted(&self.guest, &self.bases, &access)),
            None => Ok(NO_WANTS),
        }
    }
}
