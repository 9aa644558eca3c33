//! What a vCPU's accesses of system registers do.
ghost use Rattle.std.specs.Prelude.{◌≡◌, ◌<◌, IsTrue};
ghost use Rattle.ideal_guest.specs.Calls.{is_good_op};
ghost use Rattle.ideal_guest.specs.Call.{after_op};
ghost use Rattle.gic_vm.specs.Calls.{value_in, done_in, register_op, encoded_op, sysreg_answer, after_sysreg};
ghost use Rattle.gic_vm.specs.State.{with_guest};

use crate::done::{Done, NotDone};
use crate::encoding::Encoding;
use crate::lines::look;
use crate::machine::Machine;
use ideal_guest::{Answer, GuestOp, IccReg};

/// The value in an answer, 0 where nothing is read.
fn value_of(answer: Answer) -> u64
    ensures { result ≡ value_in answer }
{
    match answer {
        Answer::Value(value) => value,
        Answer::Nothing | Answer::Regs(_) => 0,
    }
}

impl Machine {
    /// Does an operation of a vCPU.
    #[tactic(auto, using(crate::proofs::KeptLemmas::kept_after))]
    pub(crate) fn operate(&mut self, vcpu: u32, op: GuestOp) -> Done
        requires there { vcpu < self.old.guest.shape.vcpus }
        requires good { IsTrue (is_good_op self.old.guest.shape op) }
        ensures done { result ≡ done_in op self.old.guest vcpu }
        ensures machine { self.new ≡ with_guest self.old (after_op op self.old.guest vcpu) }
    {
        let answer = self.guest.operate(vcpu, op);
        Done {
            value: value_of(answer),
            changed: look(&self.guest, &mut self.lines),
        }
    }

    /// A vCPU reads a register of its CPU interface, or writes the value to it.
    ///
    /// `NotDone::Undefined` exactly where the register has no such access, and `NotDone::NoRegister` where the machine has no such vCPU.
    pub fn icc(&mut self, vcpu: u32, reg: IccReg, write: Option<u64>) -> Result<Done, NotDone>
        ensures answer { result ≡ sysreg_answer (register_op self.old.guest vcpu reg write) self.old.guest vcpu }
        ensures machine { self.new ≡ after_sysreg (register_op self.old.guest vcpu reg write) self.old vcpu }
    {
        if vcpu >= self.guest.shape.vcpus {
            return Err(NotDone::NoRegister);
        }
        let is_usable = match write {
            Some(_) => reg.is_writable(),
            None => reg.is_readable(),
        };
        if !is_usable {
            return Err(NotDone::Undefined);
        }
        Ok(self.operate(vcpu, GuestOp::Icc { reg, write }))
    }

    /// The same by the encoding of the register.
    ///
    /// `NotDone::NoRegister` also where the encoding is that of none of the machine's registers.
    pub fn sysreg(
        &mut self,
        vcpu: u32,
        encoding: Encoding,
        write: Option<u64>,
    ) -> Result<Done, NotDone>
        ensures answer { result ≡ sysreg_answer (encoded_op self.old.guest vcpu encoding write) self.old.guest vcpu }
        ensures machine { self.new ≡ after_sysreg (encoded_op self.old.guest vcpu encoding write) self.old vcpu }
    {
        match encoding.register() {
            Some(reg) => self.icc(vcpu, reg, write),
            None => Err(NotDone::NoRegister),
        }
    }
}
