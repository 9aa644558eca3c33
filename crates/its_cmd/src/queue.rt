//! The word of an ITS's queue, and the offset of the next command.
ghost use Rattle.std.specs.Prelude.{◌≡◌, ◌≢◌, ◌<◌, ◌≤◌, ◌%◌, IsTrue, IfSome, IfNone, if◌then◌else◌};
ghost use Rattle.its_cmd.specs.Queue.{actors, command_bytes, page_bytes, max_queue_bytes, IsQueue, packed, queue_of, is_queue_word, advanced};

use floor_words::{Field, has_bit, put_bit};

/// The bytes of a command: four doublewords.
pub const COMMAND_BYTES: u32 = 32;
/// A queue is a number of pages of this many bytes.
pub const PAGE_BYTES: u32 = 4096;
/// The most bytes that a queue has: 256 pages.
pub const MAX_QUEUE_BYTES: u32 = 1048576;
/// Actors are numbered below this.
pub const ACTORS: u32 = 64;

/// Stalled, where CREADR has it.
const STALLED: u32 = 0;
/// The offset in commands, where CREADR has it: bits [19:5].
const OFFSET: Field = Field {
    place: 5,
    width: 15,
};
/// Somebody acts for the ITS.
const TURN: u32 = 32;
/// The actor's number, where TURN is 1: bits [38:33].
const ACTOR: Field = Field {
    place: 33,
    width: 6,
};

/// A law of the limits: a command, a page and the largest queue have so many bytes, and there are so many actors.
pub fn limits_are_defined()
    ensures command { COMMAND_BYTES ≡ command_bytes }
    ensures page { PAGE_BYTES ≡ page_bytes }
    ensures queue { MAX_QUEUE_BYTES ≡ max_queue_bytes }
    ensures actor { ACTORS ≡ actors }
{}

/// How far an ITS has read its command queue (IHI 0069, GITS_CREADR), and which actor of the guest acts for
/// the ITS (own choice).
#[derive(Clone, Copy, Debug, PartialEq, Eq, Hash)]
pub struct QueueWord {
    /// The number of the actor that has the ITS, below 64, or none.
    pub turn: Option<u32>,
    /// The byte offset of the next command, a multiple of 32 below 1048576.
    pub offset: u32,
    /// The command at the offset was bad, and no further one is taken.
    pub stalled: bool,
}

/// The word of a queue.
pub fn pack(queue: &QueueWord) -> u64
    requires { IsQueue queue.now }
    ensures value { result ≡ packed queue.now }
    ensures back { queue_of result ≡ queue.now }
    ensures well_formed { IsTrue (is_queue_word result) }
{
    let turn = match queue.turn {
        Some(actor) => put_bit(true, TURN) + ACTOR.put(u64::from(actor)),
        None => 0,
    };
    put_bit(queue.stalled, STALLED) + u64::from(queue.offset) + turn
}

/// The queue of a word. None exactly where the word is not well formed, that is, the word of no queue.
pub fn unpack(word: u64) -> Option<QueueWord>
    ensures value { result ≡ (if is_queue_word word then Some (queue_of word) else None) }
    ensures queue { IfSome result IsQueue }
    ensures back { IfSome result (λ queue. packed queue ≡ word) }
    ensures none { IfNone result ((queue : QueueWord) → IsQueue queue → packed queue ≢ word) }
{
    let queue = QueueWord {
        turn: has_bit(word, TURN).then_some(ACTOR.of(word) as u32),
        offset: OFFSET.in_place(word) as u32,
        stalled: has_bit(word, STALLED),
    };
    (pack(&queue) == word).then_some(queue)
}

/// The offset of the command after the one at `offset`: 32 further, and 0 where that is not below the
/// queue's bytes. `bytes` is a multiple of 4096 from 4096 to 1048576, `offset` a multiple of 32 below 1048576.
pub fn advance(offset: u32, bytes: u32) -> u32
    requires pages { bytes % page_bytes ≡ 0 }
    requires some_page { page_bytes ≤ bytes }
    requires size { bytes ≤ max_queue_bytes }
    requires command { offset % command_bytes ≡ 0 }
    requires offset { offset < max_queue_bytes }
    ensures value { result ≡ advanced offset bytes }
    ensures multiple { result % command_bytes ≡ 0 }
    ensures within { result < bytes }
{
    let next = offset + COMMAND_BYTES;
    if next < bytes { next } else { 0 }
}
