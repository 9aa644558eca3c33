//! What a vCPU's accesses of a machine by guest physical addresses do.
ghost use Rattle.std.specs.Prelude.{◌≡◌, ◌<◌, ◌↔◌, IsTrue, IsErr, IfSome, IfOk, OnOk, OnErr, None, Some};
ghost use Rattle.ideal_guest.specs.Registers.{is_size as is_size_of};
ghost use Rattle.ideal_guest.specs.Words.{GuestShape};
ghost use Rattle.ideal_guest.specs.Calls.{is_good_op};
ghost use Rattle.gic_vm.specs.Layout.{IsPlace};
ghost use Rattle.guest_memory.specs.Access.{op_of};
ghost use Rattle.gic_vm.specs.Mmio.{low_bytes as low_bytes_of, access_of, access_at as access_found, place_at as place_in, IsMade};

use crate::done::{Done, NotMine};
use crate::machine::Machine;
use guest_memory::{Access, GuestMemory, copy};
use ideal_guest::Frame;

/// Whether an access has one of the sizes: 1, 2, 4 or 8 bytes.
pub fn is_size(size: u32) -> bool
    ensures { result ≡ is_size_of size }
{
    matches!(size, 1 | 2 | 4 | 8)
}

/// The low 1, 2, 4 or 8 bytes of a value.
fn low_bytes(size: u32, value: u64) -> u64
    requires { IsTrue (is_size_of size) }
    ensures { result ≡ low_bytes_of size value }
{
    match size {
        1 => value % (1 << 8),
        2 => value % (1 << 16),
        4 => value % (1 << 32),
        _ => value,
    }
}

/// The access of a place in a frame, if it is one.
#[tactic(auto, using(crate::proofs::LayoutLemmas::access_there))]
fn access_at(frame: Frame, offset: u32, size: u32, write: Option<u64>) -> Option<Access>
    ensures value { result ≡ access_of (frame, offset) size write }
    ensures good { (shape : GuestShape) → IsPlace shape (frame, offset) → IfSome result (λ access. IsTrue (is_good_op shape (op_of access))) }
{
    if !is_size(size) || offset % size != 0 {
        return None;
    }
    Some(Access {
        frame,
        offset,
        size,
        write: write.map(|value| low_bytes(size, value)),
    })
}

impl Machine {
    /// The place that a vCPU accesses at an address.
    fn place_at(&self, vcpu: u32, address: u64) -> Option<(Frame, u32)>
        ensures value { result ≡ place_in self.now vcpu address }
        ensures there { IfSome result (IsPlace self.now.guest.shape) }
    {
        if vcpu >= self.guest.shape.vcpus {
            return None;
        }
        self.layout.frame_at(&self.guest.shape, address)
    }

    /// The access that a vCPU makes at an address, if it is one of a register. `NotMine` exactly where the address is outside of the frames, or the
    /// machine has no such vCPU.
    pub(crate) fn find(
        &self,
        vcpu: u32,
        address: u64,
        size: u32,
        write: Option<u64>,
    ) -> Result<Option<Access>, NotMine>
        ensures value { IfOk result (λ access. access ≡ access_found self.now vcpu address size write) }
        ensures good { IfOk result (λ access. IfSome access (λ access. IsTrue (is_good_op self.now.guest.shape (op_of access)))) }
        ensures vcpu { OnOk result (vcpu < self.now.guest.shape.vcpus) }
        ensures not_mine { IsErr result ↔ (place_in self.now vcpu address ≡ None) }
    {
        let Some((frame, offset)) = self.place_at(vcpu, address) else {
            return Err(NotMine);
        };
        Ok(access_at(frame, offset, size, write))
    }

    /// Makes an access, after the copies of what it makes the GIC read.
    fn make<M: GuestMemory>(&mut self, vcpu: u32, access: &Access, memory: &M) -> Done
        requires there { vcpu < self.old.guest.shape.vcpus }
        requires good { IsTrue (is_good_op self.old.guest.shape (op_of access.now)) }
        ensures { IsMade (M.may_read memory.now) (Some access.now) vcpu self.old self.new result }
    {
        copy(&mut self.guest, memory, &self.bases, access);
        self.access(vcpu, access)
    }

    /// A vCPU reads so many bytes at a guest physical address, or writes the low bytes of a value there. A size other than 1, 2, 4 and 8, and an
    /// address that is not a multiple of it, reads 0 and writes nothing; so does GITS_TRANSLATER, which devices write by [`Machine::msi`].
    ///
    /// Before a write that takes commands or sets EnableLPIs with PTZ 0, the GIC's own memory gets what it may read of the guest's, by reads of `memory`:
    /// the commands in the queue, the bytes in the configuration tables that these can read, and the vCPU's pending table. A doubleword that is not
    /// there reads 0. What is read is within what [`Machine::wants`] tells.
    ///
    /// `NotMine` exactly where the address is outside of the frames, or the machine has no such vCPU; then nothing changes.
    #[tactic(auto, using(crate::proofs::MadeLemmas::made_along, crate::proofs::MadeLemmas::none_made))]
    pub fn mmio<M: GuestMemory>(
        &mut self,
        vcpu: u32,
        address: u64,
        size: u32,
        write: Option<u64>,
        memory: &M,
    ) -> Result<Done, NotMine>
        ensures made { IfOk result (λ done. IsMade (M.may_read memory.now) (access_found self.old vcpu address size write) vcpu self.old self.new done) }
        ensures stays { OnErr result (self.new ≡ self.old) }
        ensures not_mine { IsErr result ↔ (place_in self.old vcpu address ≡ None) }
    {
        match self.find(vcpu, address, size, write)? {
            Some(access) => Ok(self.make(vcpu, &access, memory)),
            None => Ok(Done {
                value: 0,
                changed: 0,
            }),
        }
    }
}
