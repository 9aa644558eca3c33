//! From when on an actor names interrupts: by its call as that begins, and by a command of the ITS once it has begun to read
//! that.
ghost use Rattle.std.specs.Prelude.{◌≡◌, ◌<◌};
ghost use Rattle.std.specs.List.{list_any};
ghost use Rattle.floor_histories.specs.Calls.{memory_places, command_places, word_address};
ghost use Rattle.floor_histories.specs.Histories.{view_at, starts_queue as starts_queue_in, takes_commands as takes_commands_in, has_named as has_named_in, is_memory_at, is_fetch as is_fetch_in};
ghost use Rattle.history_check.specs.Ready.{IsReady};

use crate::allowed::has_mark;
use crate::state::State;
use crate::track::Doing;
use floor_histories::{
    Event, Frame, GuestOp, GuestShape, ItsReg, ItsRegRef, Operation, Place, PlainWord, its_decode,
    queue_address, split,
};

/// The bytes of a doubleword.
const DOUBLEWORD_BYTES: u32 = 8;

/// Whether a write of a register of the ITS has it take commands.
fn starts_queue(register: ItsRegRef) -> bool
    ensures { result ≡ starts_queue_in register }
{
    matches!(
        register,
        ItsRegRef::Plain {
            reg: ItsReg::Ctlr | ItsReg::Cwriter,
            ..
        }
    )
}

/// Whether the ITS takes commands in a call: a write of GITS_CTLR or of GITS_CWRITER, in a guest that has an ITS.
pub fn takes_commands(shape: &GuestShape, operation: &Operation) -> bool
    ensures { result ≡ takes_commands_in shape.now operation.now }
{
    match *operation {
        Operation::Access {
            op: GuestOp::Mem {
                frame: Frame::Its,
                offset,
                size,
                write: Some(_),
            },
        } => shape.lpis != 0 && starts_queue(its_decode(offset, size)),
        _ => false,
    }
}

impl Doing {
    /// Whether the actor names what it does further on in its call, or in the command of one: a command of the ITS once it
    /// has begun to read that.
    pub fn has_named(&self, shape: &GuestShape) -> bool
        ensures { result ≡ has_named_in shape.now self.now }
    {
        match &self.operation {
            Some(operation) => !takes_commands(shape, operation) || self.fetched,
            None => true,
        }
    }
}

impl State {
    /// Whether a word of memory is the doubleword of the next command with a number from 0.
    fn is_doubleword(&self, number: u32, index: u32) -> bool
        requires ready { IsReady self.now }
        requires number { number < 4 }
        ensures { result ≡ list_any (is_memory_at index) (memory_places self.now.guest.shape (word_address (view_at self.now) number) 8) }
    {
        let queue = queue_address(self.word(PlainWord::Cbaser));
        let address = queue + u64::from(self.guest.offset) + u64::from(DOUBLEWORD_BYTES * number);
        match split(address, DOUBLEWORD_BYTES, self.guest.shape.ram) {
            Some(part) => part.index == index,
            None => false,
        }
    }

    /// Whether a word of memory is a doubleword of the next command.
    fn is_of_next(&self, index: u32) -> bool
        requires { IsReady self.now }
        ensures { result ≡ list_any (is_memory_at index) (command_places self.now.guest.shape (view_at self.now)) }
    {
        self.is_doubleword(0, index)
            || self.is_doubleword(1, index)
            || self.is_doubleword(2, index)
            || self.is_doubleword(3, index)
    }

    /// Whether an event is a read of a doubleword of the next command by the actor that has the ITS.
    pub fn is_fetch(&self, actor: u32, event: &Event) -> bool
        requires { IsReady self.now }
        ensures { result ≡ is_fetch_in self.now actor event.now }
    {
        match *event {
            Event::Read {
                place: Place::Word {
                    word: PlainWord::Ram { index },
                },
            } => has_mark(self.has_its, actor) && self.is_of_next(index),
            _ => false,
        }
    }
}
