//! Each event: what it hands out, and the state after it.
ghost use Rattle.std.specs.Prelude.{◌≡◌, ℕ, OnOk, OnErr, IsTrue, None};
ghost use Rattle.floor_histories.specs.ItsCmd.Command.{decoded};
ghost use Rattle.floor_histories.specs.Registers.{maps_after, fault_of, fault_number};
ghost use Rattle.floor_histories.specs.Calls.{has_plain, QueueChange, held_at, CanHappen, HappensFreely, has_place};
ghost use Rattle.floor_histories.specs.Histories.{word_at, view_at, handed_out, happened};
ghost use Rattle.history_check.specs.Ready.{IsReady, is_mark};

use crate::state::State;
use floor_histories::{
    Command, Event, Found, Place, PlainWord, place_of_plain, queue_decode as decode,
};
use std::alloc::{AllocError, Global};

impl State {
    /// A plain word that the guest has.
    pub fn word(&self, word: PlainWord) -> u64
        requires ready { IsReady self.now }
        requires there { IsTrue (has_plain self.now.guest.shape word) }
        ensures { result ≡ word_at self.now.guest word }
    {
        self.guest.words.as_slice()[place_of_plain(word, &self.guest.shape)]
    }

    /// What a place holds.
    fn held(&self, place: Place) -> Found
        requires ready { IsReady self.now }
        requires there { IsTrue (has_place self.now.guest.shape place) }
        ensures { result ≡ held_at (view_at self.now) place }
    {
        match place {
            Place::Word { word } => Found::Word {
                value: self.word(word),
            },
            Place::Queue => Found::Queue {
                offset: self.guest.offset,
                is_stalled: self.guest.is_stalled,
            },
            Place::Ctlr => Found::Ctlr {
                enables: self.guest.enables,
                is_spreading: self.spreads.is_some(),
            },
            Place::Lpis { vcpu } => Found::Lpis {
                is_on: self.cpu(vcpu).lpis,
            },
        }
    }

    /// What an event hands out to the actor that makes it: the record that it touches, what an access reads, what a word or
    /// a place holds.
    pub fn handed_out(&self, event: &Event) -> Found
        requires ready { IsReady self.now }
        requires can { CanHappen self.now.guest.shape event.now }
        ensures { result ≡ handed_out self.now event.now }
    {
        match *event {
            Event::Touch { key, .. } => Found::Record { irq: self.irq(key) },
            Event::Cpu { vcpu, reg, write } => Found::Answer {
                value: self.read(reg, write, vcpu),
            },
            Event::Put { word, .. } => Found::Word {
                value: self.word(word),
            },
            Event::Read { place } => self.held(place),
            Event::Enable { vcpu } => Found::Lpis {
                is_on: self.cpu(vcpu).lpis,
            },
            Event::Raise { .. } | Event::Up { .. } | Event::Down { .. } | Event::Queue { .. } =>
                Found::Nothing,
            Event::Reach { .. } | Event::Take { .. } | Event::Leave { .. } => Found::Nothing,
            Event::CtlrBegin { .. } | Event::CtlrEnd | Event::ItsBegin | Event::ItsEnd =>
                Found::Nothing,
        }
    }

    /// A mark is taken, or is free again.
    fn mark(&mut self, actor: u32, event: &Event)
        requires ready { IsReady self.old }
        requires is { IsTrue (is_mark event.now) }
        ensures value { self.new ≡ happened actor event.now self.old }
        ensures ready { IsReady self.new }
    {
        match *event {
            Event::CtlrBegin { enables } => {
                self.set_enables(enables);
                self.set_spreads(Some(actor));
            }
            Event::CtlrEnd => self.set_spreads(None),
            Event::ItsBegin => self.set_its(Some(actor)),
            Event::ItsEnd => self.set_its(None),
            _ => unreachable!(),
        }
    }

    /// What a command without a fault maps is mapped.
    #[tactic(auto, using(crate::proofs::ReadyLemmas::ready_tables))]
    fn carry_out(&mut self, command: &Command)
        requires ready { IsReady self.old }
        requires good { fault_of self.old.guest.shape self.old.guest.tables command.now ≡ None }
        ensures value { self.new ≡ record self.old { guest = record self.old.guest { tables = maps_after self.old.guest.tables command.now } } }
        ensures ready { IsReady self.new }
    {
        let shape = self.guest.shape;
        self.guest.tables.carry_out(command, &shape);
    }

    /// The end of a command of the ITS that has no fault: what it maps is mapped, and the queue is at an offset, in bytes.
    pub fn finish(&mut self, offset: u32, words: [u64; 4])
        requires ready { IsReady self.old }
        requires good { fault_number self.old.guest.shape self.old.guest.tables (decoded words) ≡ None }
        ensures value { (actor : ℕ) → self.new ≡ happened actor (Event.Queue offset (QueueChange.Done words)) self.old }
        ensures ready { IsReady self.new }
    {
        if let Ok(command) = decode(words) {
            self.carry_out(&command);
        }
        self.set_queue(offset, false);
    }

    /// An event of an actor happens, which is not the end of a command: the state after it. An event that is not allowed
    /// has no meaning, but its effect is defined. `AllocError` where memory is refused: then nothing happened.
    pub fn happens(&mut self, alloc: Global, actor: u32, event: &Event) -> Result<(), AllocError>
        requires ready { IsReady self.old }
        requires can { HappensFreely self.old.guest.shape event.now }
        ensures ok { OnOk result (self.new ≡ happened actor event.now self.old) }
        ensures err { OnErr result (self.new ≡ self.old) }
        ensures ready { IsReady self.new }
    {
        match *event {
            Event::Raise { key } => self.raise(key),
            Event::Up { key } => self.wire(key, true),
            Event::Down { key } => self.wire(key, false),
            Event::Touch { key, touching } => self.touch(key, touching),
            Event::Enable { vcpu } => self.enable(vcpu),
            Event::Reach { key, vcpu } => self.reach(alloc, key, vcpu)?,
            Event::Take { key, vcpu } => self.take(alloc, key, vcpu)?,
            Event::Leave { key, vcpu } => self.leave(alloc, key, vcpu)?,
            Event::Cpu { vcpu, reg, write } => {
                self.access(alloc, reg, write, vcpu)?;
            }
            Event::Put { word, value } => self.set_word(word, value),
            Event::Queue { offset, change } => self.queue(offset, change),
            Event::Read { .. } => {}
            Event::CtlrBegin { .. } | Event::CtlrEnd | Event::ItsBegin | Event::ItsEnd => self.mark(
                actor, event,
            ),
        }
        Ok(())
    }
}
