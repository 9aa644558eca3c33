//! What a vCPU's accesses of a redistributor do, and what they read.
ghost use Rattle.std.specs.Prelude.{◌≡◌, ◌≤◌, ◌<◌, ◌+◌, IsTrue, Some, None, if◌then◌else◌};
ghost use Rattle.std.specs.List.{range_with_len, filter_map};
ghost use Rattle.floor_calls.specs.Words.{has_interrupt};
ghost use Rattle.floor_calls.specs.Calls.{FitsHalf, FitsRedist, is_in_table as is_in_table_of, pended_at, enable_events, redist_written, redist_events, redist_held as redist_held_in, redist_value as redist_value_in};
ghost use Rattle.floor_calls.specs.GicCall.declared.event.Event.TheVariants.{Touch};
ghost use Rattle.ideal_guest.specs.Ideal.{view_of, after_events};
ghost use Rattle.ideal_guest.specs.Sound.{IsSound};

use crate::access::low;
use crate::guest::IdealGuest;
use floor_calls::{
    FIRST_LPI, Frame, Half, IIDR, Key, Kind, PIDR2, PlainWord, RedistReg as Reg,
    RedistRegRef as RegRef, Touching, enable_lpis_after, has_bit, pendbaser_after, pendbaser_read,
    pending_address, propbaser_after, target_in,
};

/// PTZ, in what GICR_PENDBASER stores.
const PTZ: u32 = 62;
/// A write of 1 to an interrupt's part of ISPENDR.
const PEND: Touching = Touching::Register {
    kind: Kind::SetPending,
    value: 1,
};

impl IdealGuest {
    /// Whether an LPI's bit in the pending table of a vCPU is 1.
    fn is_in_table(&self, vcpu: u32, id: u32) -> bool
        requires sound { IsSound self.now }
        requires there { vcpu < self.now.shape.vcpus }
        requires first { 8192 ≤ id }
        requires last { id ≤ 65535 }
        ensures { result ≡ is_in_table_of self.now.shape (view_of self.now) vcpu id }
    {
        let (address, bit) = pending_address(self.word(PlainWord::Pendbaser { vcpu }), id);
        has_bit(self.memory(address, 1), bit)
    }

    /// Whether an LPI becomes pending as EnableLPIs of a vCPU rises: it is for the vCPU, and in its pending table.
    fn is_pended(&self, vcpu: u32, id: u32) -> bool
        requires sound { IsSound self.now }
        requires there { vcpu < self.now.shape.vcpus }
        requires lpi { IsTrue (has_interrupt self.now.shape (Key.Lpi id)) }
        ensures { pended_at self.now.shape (view_of self.now) vcpu id ≡ (if result then Some (Touch (Key.Lpi id) (Touching.Register Kind.SetPending 1)) else None) }
    {
        let target = target_in(self.irq(Key::Lpi(id)).route, &self.shape);
        target == Some(vcpu) && self.is_in_table(vcpu, id)
    }

    /// The LPIs that are for a vCPU and in its pending table become pending, in rising INTID.
    fn pend_lpis(&mut self, vcpu: u32)
        requires sound { IsSound self.old }
        requires there { vcpu < self.old.shape.vcpus }
        ensures after { self.new ≡ after_events (filter_map (λ number. pended_at self.old.shape (view_of self.old) vcpu (8192 + number)) (range_with_len 0 self.old.shape.lpis)) self.old }
        ensures sound { IsSound self.new }
        ensures shape { self.new.shape ≡ self.old.shape }
    {
        for number in 0..self.shape.lpis {
            let id = FIRST_LPI + number;
            if self.is_pended(vcpu, id) {
                self.touch(Key::Lpi(id), PEND);
            }
        }
    }

    /// Writes 1 to EnableLPIs.
    fn write_enable(&mut self, vcpu: u32)
        requires sound { IsSound self.old }
        requires there { vcpu < self.old.shape.vcpus }
        ensures after { self.new ≡ after_events (enable_events self.old.shape (view_of self.old) vcpu) self.old }
        ensures sound { IsSound self.new }
        ensures shape { self.new.shape ≡ self.old.shape }
    {
        let is_zero = has_bit(self.word(PlainWord::Pendbaser { vcpu }), PTZ);
        let stays = self.cpu(vcpu).lpis || is_zero;
        self.enable_lpis(vcpu);
        if !stays {
            self.pend_lpis(vcpu);
        }
    }

    /// Writes a register of a redistributor that has no part for each interrupt.
    fn write_redist(&mut self, vcpu: u32, reg: Reg, half: Half, value: u64)
        requires sound { IsSound self.old }
        requires there { vcpu < self.old.shape.vcpus }
        requires fits { FitsHalf half (Some value) }
        ensures after { self.new ≡ after_events (redist_written self.old.shape (view_of self.old) vcpu reg half value) self.old }
        ensures sound { IsSound self.new }
        ensures shape { self.new.shape ≡ self.old.shape }
    {
        let enabled = self.cpu(vcpu).lpis;
        match reg {
            Reg::Ctlr if enable_lpis_after(&self.shape, false, low(value)) => {
                self.write_enable(vcpu);
            }
            Reg::Propbaser if !enabled => {
                let word = PlainWord::Propbaser { vcpu };
                let stored = self.word(word);
                let value = half.written(stored, value);
                self.set_word(word, propbaser_after(false, stored, value));
            }
            Reg::Pendbaser if !enabled => {
                let word = PlainWord::Pendbaser { vcpu };
                let stored = self.word(word);
                let value = half.written(stored, value);
                self.set_word(word, pendbaser_after(false, stored, value));
            }
            _ => {}
        }
    }

    /// Makes an access of a vCPU's redistributor.
    pub(crate) fn access_redist(&mut self, vcpu: u32, reference: RegRef, write: Option<u64>)
        requires sound { IsSound self.old }
        requires there { vcpu < self.old.shape.vcpus }
        requires fits { FitsRedist reference write }
        ensures after { self.new ≡ after_events (redist_events self.old.shape (view_of self.old) vcpu reference write) self.old }
        ensures sound { IsSound self.new }
        ensures shape { self.new.shape ≡ self.old.shape }
    {
        match (reference, write) {
            (RegRef::Bits { kind, first, count }, _) => {
                self.access_parts(Frame::Redist { vcpu }, kind, first, count, write);
            }
            (RegRef::Plain { reg, half }, Some(value)) => {
                self.write_redist(vcpu, reg, half, value);
            }
            _ => {}
        }
    }

    /// What a register of a redistributor holds that has no part for each interrupt.
    fn redist_held(&self, vcpu: u32, reg: Reg) -> u64
        requires sound { IsSound self.now }
        requires there { vcpu < self.now.shape.vcpus }
        ensures { result ≡ redist_held_in self.now.shape (view_of self.now) vcpu reg }
    {
        match reg {
            Reg::Ctlr => u64::from(floor_calls::redist_ctlr(&self.shape, self.cpu(vcpu).lpis)),
            Reg::Iidr => u64::from(IIDR),
            Reg::Typer => floor_calls::redist_typer(&self.shape, vcpu),
            Reg::Propbaser => self.word(PlainWord::Propbaser { vcpu }),
            Reg::Pendbaser => pendbaser_read(self.word(PlainWord::Pendbaser { vcpu })),
            Reg::Pidr2 => u64::from(PIDR2),
        }
    }

    /// What a read of a vCPU's redistributor answers.
    pub(crate) fn redist_value(&self, vcpu: u32, reference: RegRef) -> u64
        requires sound { IsSound self.now }
        requires there { vcpu < self.now.shape.vcpus }
        requires fits { FitsRedist reference None }
        ensures { result ≡ redist_value_in self.now.shape (view_of self.now) vcpu reference }
    {
        match reference {
            RegRef::Bits { kind, first, count } => {
                self.part_value(Frame::Redist { vcpu }, kind, first, count)
            }
            RegRef::Plain { reg, half } => half.of(self.redist_held(vcpu, reg)),
            RegRef::Reserved => 0,
        }
    }
}
