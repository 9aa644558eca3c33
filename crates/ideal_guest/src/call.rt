//! What the calls of vCPUs and devices do to one guest.
ghost use Rattle.std.specs.Prelude.{◌≡◌, ◌<◌, ℕ, IsTrue, Some};
ghost use Rattle.floor_calls.specs.Registers.{is_size};
ghost use Rattle.floor_calls.specs.Calls.{fits, has_frame, is_usable, is_good_op, is_good_event, memory_written, sgi_events, access_events, access_value as access_value_in};
ghost use Rattle.floor_calls.specs.GicCall.Call.{starts_commands as starts_commands_in};
ghost use Rattle.ideal_guest.specs.Ideal.{view_of, after_events};
ghost use Rattle.ideal_guest.specs.Call.{op_answer, after_op, after_device};
ghost use Rattle.ideal_guest.specs.Sound.{IsSound};

use crate::guest::IdealGuest;
use floor_calls::{
    Answer, DeviceOp, Frame, GuestOp, IccReg, Key, PlainWord, dist_access, has_bit, insert,
    its_access, redist_access, sgi_intid, sgi_targets, split,
};

impl IdealGuest {
    /// Writes memory, where it is the guest's.
    fn write_memory(&mut self, offset: u32, size: u32, value: u64)
        requires sound { IsSound self.old }
        requires size { IsTrue (is_size size) }
        requires fits { IsTrue (fits size (Some value)) }
        ensures after { self.new ≡ after_events (memory_written self.old.shape (view_of self.old) offset size value) self.old }
        ensures sound { IsSound self.new }
        ensures shape { self.new.shape ≡ self.old.shape }
    {
        let Some(part) = split(u64::from(offset), size, self.shape.ram) else {
            return;
        };
        let word = PlainWord::Ram { index: part.index };
        let value = insert(self.word(word), &part, value);
        self.set_word(word, value);
    }

    /// Makes an access of memory or of a memory-mapped register, before any command.
    fn access_frame(&mut self, frame: Frame, offset: u32, size: u32, write: Option<u64>)
        requires sound { IsSound self.old }
        requires size { IsTrue (is_size size) }
        requires fits { IsTrue (fits size write) }
        requires frame { IsTrue (has_frame self.old.shape frame) }
        ensures after { self.new ≡ after_events (access_events self.old.shape (view_of self.old) frame offset size write) self.old }
        ensures sound { IsSound self.new }
        ensures shape { self.new.shape ≡ self.old.shape }
    {
        match (frame, write) {
            (Frame::Dist, _) => self.access_dist(dist_access(offset, size, write), write),
            (Frame::Redist { vcpu }, _) => {
                self.access_redist(vcpu, redist_access(offset, size, write), write);
            }
            (Frame::Its, _) => self.access_its(its_access(offset, size, write), write),
            (Frame::Ram, Some(value)) => self.write_memory(offset, size, value),
            (Frame::Ram, None) => {}
        }
    }

    /// Whether an access starts commands.
    fn starts_commands(&self, frame: Frame, offset: u32, size: u32, write: Option<u64>) -> bool
        requires sound { IsSound self.now }
        requires size { IsTrue (is_size size) }
        requires fits { IsTrue (fits size write) }
        ensures { result ≡ starts_commands_in self.now.shape (view_of self.now) frame offset size write }
    {
        match frame {
            Frame::Its => self.its_starts(its_access(offset, size, write), write),
            Frame::Dist | Frame::Redist { .. } | Frame::Ram => false,
        }
    }

    /// What a read of memory or of a memory-mapped register answers.
    fn access_value(&self, frame: Frame, offset: u32, size: u32) -> u64
        requires sound { IsSound self.now }
        requires size { IsTrue (is_size size) }
        requires frame { IsTrue (has_frame self.now.shape frame) }
        ensures { result ≡ access_value_in self.now.shape (view_of self.now) frame offset size }
    {
        match frame {
            Frame::Dist => self.dist_value(dist_access(offset, size, None)),
            Frame::Redist { vcpu } => self.redist_value(vcpu, redist_access(offset, size, None)),
            Frame::Its => self.its_value(its_access(offset, size, None)),
            Frame::Ram => self.memory(u64::from(offset), size),
        }
    }

    /// Makes the SGI of a write of ICC_SGI1R by a vCPU pending at each vCPU that the value names, in rising order.
    fn send(&mut self, value: u64, sender: u32)
        requires { IsSound self.old }
        ensures after { self.new ≡ after_events (sgi_events self.old.shape sender value) self.old }
        ensures sound { IsSound self.new }
        ensures shape { self.new.shape ≡ self.old.shape }
    {
        let targets = sgi_targets(value, sender, &self.shape);
        let id = sgi_intid(value);
        for vcpu in 0..self.shape.vcpus {
            if has_bit(u64::from(targets.0), vcpu) {
                self.raise(Key::Private { vcpu, id });
            }
        }
    }

    /// Does an access of a register of a vCPU's CPU interface, and answers what it reads.
    fn operate_icc(&mut self, vcpu: u32, reg: IccReg, write: Option<u64>) -> Answer
        requires sound { IsSound self.old }
        requires there { vcpu < self.old.shape.vcpus }
        requires usable { IsTrue (is_usable reg write) }
        ensures answer { result ≡ op_answer (GuestOp.Icc reg write) self.old vcpu }
        ensures after { self.new ≡ after_op (GuestOp.Icc reg write) self.old vcpu }
        ensures sound { IsSound self.new }
        ensures shape { self.new.shape ≡ self.old.shape }
    {
        let answer = self.access(reg, write, vcpu);
        if let (IccReg::Sgi1r, Some(value)) = (reg, write) {
            self.send(value, vcpu);
        }
        answer.map_or(Answer::Nothing, Answer::Value)
    }

    /// Does an access of memory or of a memory-mapped register, and answers what it reads.
    fn operate_memory(&mut self, frame: Frame, offset: u32, size: u32, write: Option<u64>) -> Answer
        requires sound { IsSound self.old }
        requires size { IsTrue (is_size size) }
        requires fits { IsTrue (fits size write) }
        requires frame { IsTrue (has_frame self.old.shape frame) }
        ensures answer { (vcpu : ℕ) → result ≡ op_answer (GuestOp.Mem frame offset size write) self.old vcpu }
        ensures after { (vcpu : ℕ) → self.new ≡ after_op (GuestOp.Mem frame offset size write) self.old vcpu }
        ensures sound { IsSound self.new }
        ensures shape { self.new.shape ≡ self.old.shape }
    {
        let answer = match write {
            None => Answer::Value(self.access_value(frame, offset, size)),
            Some(_) => Answer::Nothing,
        };
        let starts = self.starts_commands(frame, offset, size, write);
        self.access_frame(frame, offset, size, write);
        if starts {
            self.run_queue();
        }
        answer
    }

    /// Does an operation of a vCPU, with the commands of the ITS that it starts, and answers the value that it reads; a
    /// write answers nothing. The vCPU is numbered from 0, below the shape's, and the operation is one that a scenario of
    /// this shape may have.
    pub fn operate(&mut self, vcpu: u32, op: GuestOp) -> Answer
        requires sound { IsSound self.old }
        requires there { vcpu < self.old.shape.vcpus }
        requires good { IsTrue (is_good_op self.old.shape op) }
        ensures answer { result ≡ op_answer op self.old vcpu }
        ensures after { self.new ≡ after_op op self.old vcpu }
        ensures sound { IsSound self.new }
        ensures shape { self.new.shape ≡ self.old.shape }
    {
        match op {
            GuestOp::Icc { reg, write } => self.operate_icc(vcpu, reg, write),
            GuestOp::Mem {
                frame,
                offset,
                size,
                write,
            } => self.operate_memory(frame, offset, size, write),
        }
    }

    /// Makes the LPI of a message-signalled interrupt pending, where the ITS translates it.
    fn translate(&mut self, device: u32, event: u32)
        requires { IsSound self.old }
        ensures after { self.new ≡ after_device (DeviceOp.Msi device event) self.old }
        ensures sound { IsSound self.new }
        ensures shape { self.new.shape ≡ self.old.shape }
    {
        if let Some(id) = self.tables.translated(self.is_its_enabled(), device, event) {
            self.raise(Key::Lpi(id));
        }
    }

    /// Does what a device does: sends a message or an MSI, or moves a wire. It is one that a scenario of this shape may
    /// have; an MSI that the ITS does not translate does nothing.
    pub fn receive(&mut self, op: DeviceOp)
        requires sound { IsSound self.old }
        requires good { IsTrue (is_good_event self.old.shape op) }
        ensures after { self.new ≡ after_device op self.old }
        ensures sound { IsSound self.new }
        ensures shape { self.new.shape ≡ self.old.shape }
    {
        match op {
            DeviceOp::Message { spi } => self.raise(Key::Spi(spi)),
            DeviceOp::Wire { key, up } => self.wire(key, up),
            DeviceOp::Msi { device, event } => self.translate(device, event),
        }
    }
}
