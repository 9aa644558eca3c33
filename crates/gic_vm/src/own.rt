//! Accesses of the registers that a machine answers itself.
ghost use Rattle.std.specs.Prelude.{◌≡◌, ◌<◌, IsTrue, IfSome, Some};
ghost use Rattle.ideal_guest.specs.Words.{IsShape};
ghost use Rattle.ideal_guest.specs.Registers.{is_size};
ghost use Rattle.ideal_guest.specs.Calls.{fits, has_frame, FitsHalf, is_good_op};
ghost use Rattle.guest_memory.specs.Access.{op_of};
ghost use Rattle.guest_memory.specs.Bases.{vcpu_of};
ghost use Rattle.gic_vm.specs.Own.{own_at as own_found, own_in_redist as own_redist_found, own_vcpu, own_half, own_read as read_by, takes_base as is_taken, bases_after as bases_left, after_base, after_write, read_write, after_access, access_read};
ghost use Rattle.gic_vm.specs.Calls.{done_by};

use crate::done::Done;
use crate::identity::typer;
use crate::machine::Machine;
use guest_memory::{Access, Base, Bases};
use ideal_guest::{
    DistReg, DistRegRef, Frame, GuestShape, Half, ItsReg, ItsRegRef, RedistReg, RedistRegRef,
    call_its_access, dist_access, redist_access,
};

/// What an access is to that the machine answers itself.
#[derive(Clone, Copy, Debug, PartialEq, Eq)]
pub enum Own {
    /// GICD_TYPER.
    Typer(Half),
    /// A register that tells where the guest has something.
    Of(Base, Half),
}

/// The register of a redistributor that an access is to, if the machine answers it itself.
fn own_in_redist(vcpu: u32, reference: RedistRegRef) -> Option<Own>
    ensures { result ≡ own_redist_found vcpu reference }
{
    match reference {
        RedistRegRef::Plain { reg, half } => match reg {
            RedistReg::Propbaser => Some(Own::Of(Base::Properties { vcpu }, half)),
            RedistReg::Pendbaser => Some(Own::Of(Base::Pending { vcpu }, half)),
            _ => None,
        },
        _ => None,
    }
}

/// The register that an access is to, if the machine answers it itself.
fn own_at(shape: &GuestShape, access: &Access) -> Option<Own>
    requires size { IsTrue (is_size access.now.size) }
    requires fits { IsTrue (fits access.now.size access.now.write) }
    requires frame { IsTrue (has_frame shape.now access.now.frame) }
    requires shape { IsShape shape.now }
    ensures value { result ≡ own_found shape.now access.now.frame access.now.offset access.now.size }
    ensures there { IfSome result (λ own. own_vcpu own < shape.now.vcpus) }
    ensures fits { IfSome result (λ own. FitsHalf (own_half own) access.now.write) }
{
    let Access {
        frame,
        offset,
        size,
        write,
    } = *access;
    match frame {
        Frame::Dist => match dist_access(offset, size, write) {
            DistRegRef::Plain {
                reg: DistReg::Typer,
                half,
            } => Some(Own::Typer(half)),
            _ => None,
        },
        Frame::Redist { vcpu } => own_in_redist(vcpu, redist_access(offset, size, write)),
        Frame::Its if shape.lpis != 0 => match call_its_access(offset, size, write) {
            ItsRegRef::Plain {
                reg: ItsReg::Cbaser,
                half,
            } => Some(Own::Of(Base::Queue, half)),
            _ => None,
        },
        Frame::Its | Frame::Ram => None,
    }
}

impl Machine {
    /// What a register reads that the machine answers itself.
    fn own_value(&self, own: Own) -> u64
        requires { own_vcpu own < self.now.guest.shape.vcpus }
        ensures { result ≡ read_by self.now own }
    {
        match own {
            Own::Typer(half) => half.of(typer(&self.guest.shape)),
            Own::Of(base, half) => half.of(base.read(self.bases.get(base))),
        }
    }

    /// Whether a write of the register is taken.
    fn takes_base(&self, base: Base) -> bool
        requires { vcpu_of base < self.now.guest.shape.vcpus }
        ensures { result ≡ is_taken self.now.guest base }
    {
        match base {
            Base::Queue => !self.guest.is_its_enabled(),
            Base::Properties { vcpu } | Base::Pending { vcpu } => !self.guest.cpu(vcpu).lpis,
        }
    }

    /// What the registers keep after one was written this.
    fn bases_after(&self, base: Base, kept: u64) -> Bases
        requires { vcpu_of base < self.now.guest.shape.vcpus }
        ensures { result ≡ bases_left self.now base kept }
    {
        if !self.takes_base(base) {
            return self.bases;
        }
        let mut bases = self.bases;
        bases.set(base, kept);
        bases
    }

    /// Writes a half of a register that tells where the guest has something.
    fn write_base(&mut self, vcpu: u32, base: Base, half: Half, value: u64) -> Done
        requires there { vcpu < self.old.guest.shape.vcpus }
        requires base { vcpu_of base < self.old.guest.shape.vcpus }
        requires fits { FitsHalf half (Some value) }
        ensures done { result ≡ done_by 0 self.old.guest (after_base base half value self.old vcpu).guest }
        ensures machine { self.new ≡ after_base base half value self.old vcpu }
    {
        let kept = base.kept(half.written(self.bases.get(base), value));
        self.bases = self.bases_after(base, kept);
        self.operate(vcpu, base.placed_op(kept))
    }

    /// Reads a register that the machine answers itself.
    #[tactic(auto, using(crate::proofs::KeptLemmas::unchanged))]
    fn read_own(&self, own: Own) -> Done
        requires { own_vcpu own < self.now.guest.shape.vcpus }
        ensures { result ≡ done_by (read_by self.now own) self.now.guest self.now.guest }
    {
        Done {
            value: self.own_value(own),
            changed: 0,
        }
    }

    /// Makes an access of a register that the machine answers itself.
    fn access_own(&mut self, vcpu: u32, own: Own, access: &Access) -> Done
        requires there { vcpu < self.old.guest.shape.vcpus }
        requires good { IsTrue (is_good_op self.old.guest.shape (op_of access.now)) }
        requires own { own_vcpu own < self.old.guest.shape.vcpus }
        requires fits { FitsHalf (own_half own) access.now.write }
        ensures done { result ≡ done_by (read_write own access.now.write self.old) self.old.guest (after_write own access.now.write access.now self.old vcpu).guest }
        ensures machine { self.new ≡ after_write own access.now.write access.now self.old vcpu }
    {
        let Some(value) = access.write else {
            return self.read_own(own);
        };
        match own {
            Own::Of(base, half) => self.write_base(vcpu, base, half, value),
            Own::Typer(_) => self.operate(vcpu, access.operation()),
        }
    }

    /// Makes an access of memory-mapped registers.
    pub(crate) fn access(&mut self, vcpu: u32, access: &Access) -> Done
        requires there { vcpu < self.old.guest.shape.vcpus }
        requires good { IsTrue (is_good_op self.old.guest.shape (op_of access.now)) }
        ensures done { result ≡ done_by (access_read access.now self.old vcpu) self.old.guest (after_access access.now self.old vcpu).guest }
        ensures machine { self.new ≡ after_access access.now self.old vcpu }
    {
        match own_at(&self.guest.shape, access) {
            Some(own) => self.access_own(vcpu, own, access),
            None => self.operate(vcpu, access.operation()),
        }
    }
}
