//! What a vCPU's accesses of memory and of memory-mapped registers do, and what they read.
ghost use Rattle.std.specs.Prelude.{◌≡◌, ◌≤◌, ◌<◌, ◌+◌, ◌^◌, ◌%◌, IsTrue, None};
ghost use Rattle.floor_calls.specs.Words.{has_interrupt};
ghost use Rattle.floor_calls.specs.Registers.{part_bits, is_size};
ghost use Rattle.floor_calls.specs.Calls.{FitsHalf, FitParts, FitsDist, memory_at, part_at, part_value as part_value_in, part_events, ctlr_events, dist_events, dist_plain, dist_written, dist_held as dist_held_in, dist_value as dist_value_in};
ghost use Rattle.ideal_guest.specs.Ideal.{view_of, after_events};
ghost use Rattle.ideal_guest.specs.Sound.{IsSound};

use crate::guest::IdealGuest;
use floor_calls::{
    DistReg, DistRegRef as DistRef, Enables, Frame, Half, IIDR, Key, Kind, PIDR2, PlainWord,
    Touching, enables_in, extract, interrupt_count, key_at, key_of, message_intid, part_key,
    part_touch, read_part, split, with_part,
};

/// A write of 1 to an interrupt's part of ICPENDR.
pub(crate) const CLEAR: Touching = Touching::Register {
    kind: Kind::ClearPending,
    value: 1,
};

/// The low half of a value.
pub(crate) fn low(value: u64) -> u32
    ensures { result ≡ value % 2 ^ 32 }
{
    (value % (1 << 32)) as u32
}

impl IdealGuest {
    /// What so many bytes of memory hold from an address on: 0 where they are not aligned, or not in the guest's memory.
    pub(crate) fn memory(&self, address: u64, size: u32) -> u64
        requires sound { IsSound self.now }
        requires size { IsTrue (is_size size) }
        ensures value { result ≡ memory_at self.now.shape (view_of self.now) address size }
    {
        match split(address, size, self.shape.ram) {
            Some(part) => extract(self.word(PlainWord::Ram { index: part.index }), &part),
            None => 0,
        }
    }

    /// What the part of an interrupt reads, by the number of the part from a first INTID on.
    fn part(&self, frame: Frame, kind: Kind, first: u32, number: u32) -> u64
        requires sound { IsSound self.now }
        requires intid { first + number < 2 ^ 32 }
        ensures value { result ≡ part_at self.now.shape (view_of self.now) frame kind first number }
        ensures fits { result < 2 ^ part_bits kind }
    {
        match part_key(frame, kind, first + number, &self.shape) {
            Some(key) => read_part(kind, &self.irq(key)),
            None => 0,
        }
    }

    /// What a read of the parts of interrupts answers.
    pub(crate) fn part_value(&self, frame: Frame, kind: Kind, first: u32, count: u32) -> u64
        requires sound { IsSound self.now }
        requires fits { FitParts kind first count }
        ensures { result ≡ part_value_in self.now.shape (view_of self.now) frame kind first count }
    {
        let mut value = 0;
        for number in 0..count {
            value = with_part(kind, value, self.part(frame, kind, first, number), number);
        }
        value
    }

    /// Whether the guest has an SPI with an INTID.
    fn has_spi(&self, id: u32) -> bool
        requires { IsSound self.now }
        ensures { result ≡ has_interrupt self.now.shape (Key.Spi id) }
    {
        key_of(id, 0, &self.shape) == Some(Key::Spi(id))
    }

    /// Makes an access of registers that have a part for each interrupt, in a frame: of a kind, for `count` interrupts from
    /// the INTID `first` on, in rising order; a read, or a write of a value (IHI 0069, "The Distributor register map").
    pub(crate) fn access_parts(
        &mut self,
        frame: Frame,
        kind: Kind,
        first: u32,
        count: u32,
        write: Option<u64>,
    )
        requires sound { IsSound self.old }
        requires fits { FitParts kind first count }
        ensures after { self.new ≡ after_events (part_events self.old.shape frame kind first count write) self.old }
        ensures sound { IsSound self.new }
        ensures shape { self.new.shape ≡ self.old.shape }
    {
        let shape = self.shape;
        for number in 0..count {
            if let Some(key) = part_key(frame, kind, first + number, &shape) {
                self.touch(key, part_touch(kind, write, number));
            }
        }
    }

    /// Makes an access of a half of an IROUTER.
    fn access_router(&mut self, id: u32, half: Half, write: Option<u64>)
        requires sound { IsSound self.old }
        requires fits { FitsHalf half write }
        ensures after { self.new ≡ after_events (dist_plain self.old.shape (view_of self.old) (DistReg.Router id) half write) self.old }
        ensures sound { IsSound self.new }
        ensures shape { self.new.shape ≡ self.old.shape }
    {
        if !self.has_spi(id) {
            return;
        }
        let kind = Kind::Routing;
        let touching = match write {
            None => Touching::Read { kind },
            Some(value) => Touching::Register {
                kind,
                value: half.written(self.part(Frame::Dist, kind, id, 0), value),
            },
        };
        self.touch(Key::Spi(id), touching);
    }

    /// Writes GICD_CTLR: its enables are stored, and copied to each interrupt in key order.
    fn write_ctlr(&mut self, enables: Enables)
        requires { IsSound self.old }
        ensures after { self.new ≡ after_events (ctlr_events self.old.shape enables) self.old }
        ensures sound { IsSound self.new }
        ensures shape { self.new.shape ≡ self.old.shape }
    {
        let shape = self.shape;
        let copy = Touching::Enables {
            en0: enables.group0,
            en1: enables.group1,
        };
        self.set_enables(enables);
        for place in 0..interrupt_count(&shape) {
            self.touch(key_at(place, &shape), copy);
        }
    }

    /// Writes a register of the distributor that has no part for each interrupt.
    fn write_dist(&mut self, reg: DistReg, value: u64)
        requires { IsSound self.old }
        ensures after { self.new ≡ after_events (dist_written self.old.shape reg value) self.old }
        ensures sound { IsSound self.new }
        ensures shape { self.new.shape ≡ self.old.shape }
    {
        let id = message_intid(low(value));
        let key = Key::Spi(id);
        match reg {
            DistReg::Ctlr => self.write_ctlr(enables_in(low(value))),
            DistReg::SetSpi if self.has_spi(id) => self.raise(key),
            DistReg::ClrSpi if self.has_spi(id) => self.touch(key, CLEAR),
            _ => {}
        }
    }

    /// Makes an access of the distributor.
    pub(crate) fn access_dist(&mut self, reference: DistRef, write: Option<u64>)
        requires sound { IsSound self.old }
        requires fits { FitsDist reference write }
        ensures after { self.new ≡ after_events (dist_events self.old.shape (view_of self.old) reference write) self.old }
        ensures sound { IsSound self.new }
        ensures shape { self.new.shape ≡ self.old.shape }
    {
        match (reference, write) {
            (DistRef::Bits { kind, first, count }, _) => {
                self.access_parts(Frame::Dist, kind, first, count, write);
            }
            (
                DistRef::Plain {
                    reg: DistReg::Router { id },
                    half,
                },
                _,
            ) => self.access_router(id, half, write),
            (DistRef::Plain { reg, .. }, Some(value)) => self.write_dist(reg, value),
            _ => {}
        }
    }

    /// What a register of the distributor holds that has no part for each interrupt.
    fn dist_held(&self, reg: DistReg) -> u64
        requires { IsSound self.now }
        ensures { result ≡ dist_held_in self.now.shape (view_of self.now) reg }
    {
        match reg {
            DistReg::Ctlr => u64::from(floor_calls::dist_ctlr(self.enables, false)),
            DistReg::Typer => u64::from(floor_calls::dist_typer(&self.shape)),
            DistReg::Iidr => u64::from(IIDR),
            DistReg::Router { id } => self.part(Frame::Dist, Kind::Routing, id, 0),
            DistReg::Pidr2 => u64::from(PIDR2),
            DistReg::SetSpi | DistReg::ClrSpi => 0,
        }
    }

    /// What a read of the distributor answers.
    pub(crate) fn dist_value(&self, reference: DistRef) -> u64
        requires sound { IsSound self.now }
        requires fits { FitsDist reference None }
        ensures { result ≡ dist_value_in self.now.shape (view_of self.now) reference }
    {
        match reference {
            DistRef::Bits { kind, first, count } => {
                self.part_value(Frame::Dist, kind, first, count)
            }
            DistRef::Plain { reg, half } => half.of(self.dist_held(reg)),
            DistRef::Reserved => 0,
        }
    }
}
