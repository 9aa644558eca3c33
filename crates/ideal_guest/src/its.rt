//! The command queue of a guest's ITS.
ghost use Rattle.std.specs.Prelude.{◌≡◌, ◌<◌, ◌^◌, None, Ok};
ghost use Rattle.floor_calls.specs.ItsCmd.Command.{decoded};
ghost use Rattle.floor_calls.specs.Registers.{fault_of};
ghost use Rattle.floor_calls.specs.Calls.{memory_at, takes_command as takes_command_in, queue_address as queue_address_in, word_address, command_words as command_words_in};
ghost use Rattle.ideal_guest.specs.Ideal.{view_of, after_command, after_queued};
ghost use Rattle.ideal_guest.specs.Queue.{QueuesRunDry, BadCommandsStall};
ghost use Rattle.ideal_guest.specs.Sound.{IsSound};

use crate::guest::IdealGuest;
use floor_calls::{
    COMMAND_BYTES, Command, Field, PlainWord, UNKNOWN_NUMBER, advance, has_bit, queue_bytes,
    queue_decode as decode,
};

/// GITS_CBASER.Valid.
const VALID: u32 = 63;
/// The address of the queue in GITS_CBASER: bits [51:12].
const ADDRESS: Field = Field {
    place: 12,
    width: 40,
};
/// The bytes of a doubleword.
const DOUBLEWORD_BYTES: u32 = 8;

/// The address of the command queue that a GITS_CBASER names: bits [51:12], a multiple of 4096.
pub fn queue_address(cbaser: u64) -> u64
    ensures value { result ≡ queue_address_in cbaser }
    ensures bound { result < 2 ^ 52 }
{
    ADDRESS.in_place(cbaser)
}

impl IdealGuest {
    /// Whether a further command is taken.
    fn takes_command(&self) -> bool
        requires { IsSound self.now }
        ensures { result ≡ takes_command_in (view_of self.now) }
    {
        self.is_its_enabled()
            && has_bit(self.word(PlainWord::Cbaser), VALID)
            && !self.is_stalled
            && u64::from(self.offset) != self.word(PlainWord::Cwriter)
    }

    /// The doubleword of the next command with a number from 0.
    fn command_word(&self, number: u32) -> u64
        requires sound { IsSound self.now }
        requires number { number < 4 }
        ensures { result ≡ memory_at self.now.shape (view_of self.now) (word_address (view_of self.now) number) 8 }
    {
        let queue = queue_address(self.word(PlainWord::Cbaser));
        let address = queue + u64::from(self.offset) + u64::from(DOUBLEWORD_BYTES * number);
        self.memory(address, DOUBLEWORD_BYTES)
    }

    /// The four doublewords of the next command.
    fn command_words(&self) -> [u64; 4]
        requires { IsSound self.now }
        ensures { result ≡ command_words_in self.now.shape (view_of self.now) }
    {
        [
            self.command_word(0),
            self.command_word(1),
            self.command_word(2),
            self.command_word(3),
        ]
    }

    /// A command without a fault is done, and then the queue goes on.
    fn finish(&mut self, command: &Command)
        requires sound { IsSound self.old }
        requires next { decoded (command_words_in self.old.shape (view_of self.old)) ≡ Ok command.now }
        requires good { fault_of self.old.shape self.old.tables command.now ≡ None }
        ensures ok { self.new ≡ after_command self.old }
        ensures sound { IsSound self.new }
        ensures shape { self.new.shape ≡ self.old.shape }
    {
        let next = advance(self.offset, queue_bytes(self.word(PlainWord::Cbaser)));
        self.carry_out(command);
        self.set_queue(next, false);
    }

    /// The next command is done, or the queue stalls at it where it has a fault.
    fn do_command(&mut self)
        requires { IsSound self.old }
        ensures ok { self.new ≡ after_command self.old }
        ensures sound { IsSound self.new }
        ensures shape { self.new.shape ≡ self.old.shape }
    {
        let shape = self.shape;
        let Ok(command) = decode(self.command_words()) else {
            self.stall(self.offset, UNKNOWN_NUMBER);
            return;
        };
        match self.tables.fault_in(&command, &shape) {
            Some(fault) => self.stall(self.offset, fault.number()),
            None => self.finish(&command),
        }
    }

    /// All commands that are taken are done.
    pub(crate) fn run_queue(&mut self)
        requires { IsSound self.old }
        ensures ok { self.new ≡ after_queued self.old }
        ensures sound { IsSound self.new }
        ensures shape { self.new.shape ≡ self.old.shape }
    {
        let places = queue_bytes(self.word(PlainWord::Cbaser)) / COMMAND_BYTES;
        for _place in 0..places {
            if !self.takes_command() {
                return;
            }
            self.do_command();
        }
    }
}

/// A law of the command queue: the commands that a write starts are all that are taken, in a guest whose GITS_CWRITER
/// and whose place of the next command are in the queue.
pub fn queues_run_dry()
    ensures { QueuesRunDry }
{}

/// A law of commands: one that has a fault changes nothing but the stall and the fault that is stored.
pub fn bad_commands_stall()
    ensures { BadCommandsStall }
{}
