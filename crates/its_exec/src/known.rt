//! What the actor that has the ITS knows of its queue.
ghost use Rattle.std.specs.Prelude.{◌≡◌, ◌<◌, ◌+◌, ◌^◌, IsTrue};
ghost use Rattle.port_call.specs.Calls.{queue_address};
ghost use Rattle.its_exec.specs.Known.{LooksAtQueue, takes_next};

use port_call::{CoreStep, Field, PlainWord, Port, WordId, has_bit, read_plain};

/// GITS_CTLR.Enabled.
const ENABLED: u32 = 0;
/// GITS_CBASER.Valid.
const VALID: u32 = 63;
/// The address of the queue in GITS_CBASER: bits [51:12].
const ADDRESS: Field = Field {
    place: 12,
    width: 40,
};

/// The registers of an ITS's queue, as the actor that has the ITS knows them: nobody else changes them meanwhile.
#[derive(Clone, Copy, Debug, PartialEq, Eq, Hash)]
pub struct KnownQueue {
    /// GITS_CTLR as it is stored.
    pub ctlr: u64,
    /// GITS_CBASER.
    pub cbaser: u64,
    /// GITS_CWRITER.
    pub cwriter: u64,
    /// The byte offset of the next command, a multiple of 32 below 1048576.
    pub offset: u32,
    /// The command at the offset was bad.
    pub stalled: bool,
}

/// Looks at the registers of the ITS's queue, by the actor that has the ITS.
pub fn look_at_queue<P: Port>(port: &mut P) -> KnownQueue
    ensures { LooksAtQueue (P.seen port.old) (P.seen port.new) result }
{
    let word = port.step(CoreStep::Look {
        word: WordId::Queue,
    });
    let queue = port_call::queue_unpack(word).unwrap();
    KnownQueue {
        ctlr: read_plain(port, PlainWord::ItsCtlr),
        cbaser: read_plain(port, PlainWord::Cbaser),
        cwriter: read_plain(port, PlainWord::Cwriter),
        offset: queue.offset,
        stalled: queue.stalled,
    }
}

impl KnownQueue {
    /// Whether a further command is taken.
    pub(crate) fn takes_command(&self) -> bool
        ensures { result ≡ takes_next self.now }
    {
        has_bit(self.ctlr, ENABLED)
            && has_bit(self.cbaser, VALID)
            && !self.stalled
            && u64::from(self.offset) != self.cwriter
    }

    /// The address of the next command.
    pub(crate) fn address(&self) -> u64
        requires { self.now.offset < 2 ^ 20 }
        ensures value { result ≡ queue_address self.now.cbaser + self.now.offset }
        ensures bound { result < 2 ^ 53 }
    {
        ADDRESS.in_place(self.cbaser) + u64::from(self.offset)
    }
}
