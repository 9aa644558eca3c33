//! What a vCPU's accesses of the frames do, and how they get what they want of the guest's memory.
ghost use Rattle.std.specs.Prelude.{◌≡◌, ◌≢◌, None};
ghost use Rattle.vm_saved.specs.GicVm.Mmio.{place_at};
ghost use Rattle.gic_c.specs.Mmio.{call_in, IsDone, Accesses, Answers};
ghost use Rattle.gic_c.specs.Fetch.{feed_status, after_feed};

use crate::access::written;
use crate::answer::{Refusal, Reply};
use crate::board::Board;
use crate::feed::{Call, Fed, next};
use vm_saved::{Span, is_size};

impl Board {
    /// The call that arguments are, where they are good.
    fn call_of(
        &self,
        vcpu: u32,
        address: u64,
        size: u32,
        is_write: u32,
        value: u64,
    ) -> Result<Call, Refusal>
        ensures { result ≡ call_in self.now.vcpus vcpu address size is_write value }
    {
        if vcpu >= self.vcpus || !is_size(size) {
            return Err(Refusal::Invalid);
        }
        Ok(Call {
            vcpu,
            address,
            size,
            write: written(is_write, value)?,
        })
    }

    /// Makes a call, with what was fed as the guest's memory: the bytes of these ranges.
    fn make(&mut self, call: &Call, spans: &[Span]) -> Result<Reply, Refusal>
        requires there { place_at self.old.machine call.now.vcpu call.now.address ≢ None }
        ensures { IsDone call.now spans.now self.old.feed.bytes self.old self.new result }
    {
        let memory = Fed {
            spans,
            bytes: self.feed.bytes.as_slice(),
        };
        let answer = self
            .machine
            .mmio(call.vcpu, call.address, call.size, call.write, &memory);
        self.forget();
        match answer {
            Ok(done) => Ok(Reply::Done(done)),
            Err(_) => Err(Refusal::NotFound),
        }
    }

    /// Makes a call, or asks for what it still wants.
    fn reach(&mut self, call: &Call) -> Result<Reply, Refusal>
        ensures { Accesses call.now self.old self.new result }
    {
        let Ok(wants) = self
            .machine
            .wants(call.vcpu, call.address, call.size, call.write)
        else {
            self.forget();
            return Err(Refusal::NotFound);
        };
        self.feed.begin(*call);
        let spans = wants.spans();
        let count = self.feed.bytes.as_slice().len() as u64;
        match next(&spans, count) {
            Some(span) => Ok(Reply::Fetch(span)),
            None => self.make(call, &spans),
        }
    }

    /// A vCPU reads or writes so many bytes at a guest physical address.
    pub(crate) fn mmio(
        &mut self,
        vcpu: u32,
        address: u64,
        size: u32,
        is_write: u32,
        value: u64,
    ) -> Result<Reply, Refusal>
        ensures { Answers (call_in self.old.vcpus vcpu address size is_write value) self.old self.new result }
    {
        match self.call_of(vcpu, address, size, is_write, value) {
            Ok(call) => self.reach(&call),
            Err(refusal) => {
                self.forget();
                Err(refusal)
            }
        }
    }

    /// Takes the bytes that a call asked for. 0, or the negative error number.
    pub(crate) fn feed(&mut self, bytes: &[u8]) -> i32
        ensures status { result ≡ feed_status bytes.now self.old }
        ensures board { self.new ≡ after_feed bytes.now self.old }
    {
        let Some(call) = self.feed.call else {
            return Refusal::Invalid.errno();
        };
        let Ok(wants) = self
            .machine
            .wants(call.vcpu, call.address, call.size, call.write)
        else {
            return Refusal::Invalid.errno();
        };
        let count = self.feed.bytes.as_slice().len() as u64;
        match next(&wants.spans(), count) {
            Some(span) if span.bytes == bytes.len() as u64 => {
                self.feed.push(bytes);
                0
            }
            _ => Refusal::Invalid.errno(),
        }
    }
}
