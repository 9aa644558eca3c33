//! What devices and resets do.
ghost use Rattle.std.specs.Prelude.{◌≡◌, true};
ghost use Rattle.gic_c.specs.Calls.{is_flag, guest_reply, after_guest, wire_step, message_step, msi_step, reset_reply, after_reset, vcpu_reply, after_vcpu};

use crate::access::flag;
use crate::answer::{Refusal, Reply, found};
use crate::board::Board;

impl Board {
    /// The wire of an interrupt has a level.
    pub(crate) fn wire(&mut self, intid: u32, vcpu: u32, up: u32) -> Result<Reply, Refusal>
        ensures reply { result ≡ guest_reply (is_flag up) (wire_step intid vcpu up) self.old }
        ensures board { self.new ≡ after_guest (is_flag up) (wire_step intid vcpu up) self.old }
    {
        self.forget();
        let up = flag(up)?;
        found(self.machine.wire(intid, vcpu, up))
    }

    /// A device writes GICD_SETSPI_NSR.
    pub(crate) fn message(&mut self, spi: u32) -> Result<Reply, Refusal>
        ensures reply { result ≡ guest_reply true (message_step spi) self.old }
        ensures board { self.new ≡ after_guest true (message_step spi) self.old }
    {
        self.forget();
        found(self.machine.message(spi))
    }

    /// A device writes GITS_TRANSLATER.
    pub(crate) fn msi(&mut self, device: u32, event: u32) -> Result<Reply, Refusal>
        ensures reply { result ≡ guest_reply true (msi_step device event) self.old }
        ensures board { self.new ≡ after_guest true (msi_step device event) self.old }
    {
        self.forget();
        found(self.machine.msi(device, event))
    }

    /// The machine is reset.
    pub(crate) fn reset(&mut self) -> Result<Reply, Refusal>
        ensures reply { result ≡ reset_reply self.old }
        ensures board { self.new ≡ after_reset self.old }
    {
        self.forget();
        Ok(Reply::Done(self.machine.reset()))
    }

    /// A vCPU is reset.
    pub(crate) fn reset_vcpu(&mut self, vcpu: u32) -> Result<Reply, Refusal>
        ensures reply { result ≡ vcpu_reply vcpu self.old }
        ensures board { self.new ≡ after_vcpu vcpu self.old }
    {
        self.forget();
        if vcpu >= self.vcpus {
            return Err(Refusal::Invalid);
        }
        found(self.machine.reset_vcpu(vcpu))
    }
}
