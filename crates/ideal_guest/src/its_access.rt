//! What a vCPU's accesses of the ITS do before any command, and what they read.
ghost use Rattle.std.specs.Prelude.{◌≡◌, IsTrue, None, Some};
ghost use Rattle.floor_calls.specs.Calls.{has_plain, FitsHalf, FitsIts, is_stored, is_its_enabled as is_enabled_in, is_in_queue as is_in_queue_of, baser_written, cwriter_events, its_written, its_held as its_held_in, its_value as its_value_in, its_events, its_starts as its_starts_in};
ghost use Rattle.ideal_guest.specs.Ideal.{view_of, after_events};
ghost use Rattle.ideal_guest.specs.Sound.{IsSound};

use crate::access::low;
use crate::guest::IdealGuest;
use floor_calls::{
    Half, IIDR, ItsReg as Reg, ItsRegRef as RegRef, PIDR2, PlainWord, Table, baser, baser_after,
    cbaser_after, creadr, enabled_in, offset_in, queue_bytes, retries,
};

impl IdealGuest {
    /// Whether the ITS is enabled: GITS_CTLR.Enabled.
    pub fn is_its_enabled(&self) -> bool
        requires { IsSound self.now }
        ensures { result ≡ is_enabled_in (view_of self.now) }
    {
        enabled_in(low(self.word(PlainWord::ItsCtlr)))
    }

    /// Whether an offset in a value for GITS_CWRITER is below the queue's bytes.
    fn is_in_queue(&self, value: u64) -> bool
        requires { IsSound self.now }
        ensures { result ≡ is_in_queue_of (view_of self.now) value }
    {
        offset_in(value) < u64::from(queue_bytes(self.word(PlainWord::Cbaser)))
    }

    /// Writes GITS_CWRITER, before any command.
    fn write_cwriter(&mut self, value: u64)
        requires { IsSound self.old }
        ensures after { self.new ≡ after_events (cwriter_events (view_of self.old) value) self.old }
        ensures sound { IsSound self.new }
        ensures shape { self.new.shape ≡ self.old.shape }
    {
        if !self.is_in_queue(value) {
            return;
        }
        let runs = self.is_stalled && retries(self.word(PlainWord::Cbaser), value);
        self.set_word(PlainWord::Cwriter, offset_in(value));
        if runs {
            self.set_queue(self.offset, false);
        }
    }

    /// Writes GITS_CBASER.
    fn write_cbaser(&mut self, half: Half, value: u64)
        requires sound { IsSound self.old }
        requires fits { FitsHalf half (Some value) }
        ensures after { self.new ≡ after_events (its_written (view_of self.old) Reg.Cbaser half value) self.old }
        ensures sound { IsSound self.new }
        ensures shape { self.new.shape ≡ self.old.shape }
    {
        if self.is_its_enabled() {
            return;
        }
        let stored = self.word(PlainWord::Cbaser);
        let value = half.written(stored, value);
        self.set_word(PlainWord::Cwriter, 0);
        self.set_queue(0, false);
        self.set_word(PlainWord::Cbaser, cbaser_after(false, stored, value));
    }

    /// Writes GITS_BASER0 or GITS_BASER1, which is in this plain word.
    fn write_baser(&mut self, word: PlainWord, half: Half, value: u64)
        requires sound { IsSound self.old }
        requires there { IsTrue (has_plain self.old.shape word) }
        requires stored { IsTrue (is_stored word) }
        requires fits { FitsHalf half (Some value) }
        ensures after { self.new ≡ after_events (baser_written (view_of self.old) word half value) self.old }
        ensures sound { IsSound self.new }
        ensures shape { self.new.shape ≡ self.old.shape }
    {
        if self.is_its_enabled() {
            return;
        }
        let stored = self.word(word);
        let value = half.written(stored, value);
        self.set_word(word, baser_after(false, stored, value));
    }

    /// Writes a register of the ITS, before any command.
    fn write_its(&mut self, reg: Reg, half: Half, value: u64)
        requires sound { IsSound self.old }
        requires fits { FitsHalf half (Some value) }
        ensures after { self.new ≡ after_events (its_written (view_of self.old) reg half value) self.old }
        ensures sound { IsSound self.new }
        ensures shape { self.new.shape ≡ self.old.shape }
    {
        match reg {
            Reg::Ctlr => {
                let enabled = u64::from(enabled_in(low(value)));
                self.set_word(PlainWord::ItsCtlr, enabled);
            }
            Reg::Cbaser => self.write_cbaser(half, value),
            Reg::Cwriter => {
                let stored = self.word(PlainWord::Cwriter);
                self.write_cwriter(half.written(stored, value));
            }
            Reg::Baser0 => self.write_baser(PlainWord::Baser0, half, value),
            Reg::Baser1 => self.write_baser(PlainWord::Baser1, half, value),
            Reg::Iidr | Reg::Typer | Reg::Creadr | Reg::Pidr2 => {}
        }
    }

    /// Makes an access of the ITS, before any command.
    pub(crate) fn access_its(&mut self, reference: RegRef, write: Option<u64>)
        requires sound { IsSound self.old }
        requires fits { FitsIts reference write }
        ensures after { self.new ≡ after_events (its_events self.old.shape (view_of self.old) reference write) self.old }
        ensures sound { IsSound self.new }
        ensures shape { self.new.shape ≡ self.old.shape }
    {
        match (reference, write) {
            (RegRef::Plain { reg, half }, Some(value)) if self.shape.lpis != 0 => {
                self.write_its(reg, half, value);
            }
            _ => {}
        }
    }

    /// Whether an access of the ITS starts commands.
    pub(crate) fn its_starts(&self, reference: RegRef, write: Option<u64>) -> bool
        requires sound { IsSound self.now }
        requires fits { FitsIts reference write }
        ensures { result ≡ its_starts_in self.now.shape (view_of self.now) reference write }
    {
        match (reference, write) {
            (RegRef::Plain { reg, half }, Some(value)) if self.shape.lpis != 0 => match reg {
                Reg::Ctlr => true,
                Reg::Cwriter => {
                    self.is_in_queue(half.written(self.word(PlainWord::Cwriter), value))
                }
                _ => false,
            },
            _ => false,
        }
    }

    /// What a register of the ITS holds.
    fn its_held(&self, reg: Reg) -> u64
        requires { IsSound self.now }
        ensures { result ≡ its_held_in self.now.shape (view_of self.now) reg }
    {
        match reg {
            Reg::Ctlr => u64::from(floor_calls::its_ctlr(self.is_its_enabled())),
            Reg::Iidr => u64::from(IIDR),
            Reg::Typer => floor_calls::its_typer(&self.shape),
            Reg::Cbaser => self.word(PlainWord::Cbaser),
            Reg::Cwriter => self.word(PlainWord::Cwriter),
            Reg::Creadr => creadr(self.is_stalled, self.offset),
            Reg::Baser0 => baser(Table::Devices, self.word(PlainWord::Baser0)),
            Reg::Baser1 => baser(Table::Collections, self.word(PlainWord::Baser1)),
            Reg::Pidr2 => u64::from(PIDR2),
        }
    }

    /// What a read of the ITS answers: 0 in a guest that has none.
    pub(crate) fn its_value(&self, reference: RegRef) -> u64
        requires { IsSound self.now }
        ensures { result ≡ its_value_in self.now.shape (view_of self.now) reference }
    {
        match reference {
            RegRef::Plain { reg, half } if self.shape.lpis != 0 => half.of(self.its_held(reg)),
            _ => 0,
        }
    }
}
