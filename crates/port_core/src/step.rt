//! The kinds of atomic steps.
ghost use Rattle.std.specs.Prelude.{◌≡◌};
ghost use Rattle.core_words.specs.Words.{IsShape};
ghost use Rattle.port_core.specs.Step.{CanStep, word_of};

use core_words::{Back, GuestShape, IccReg, Key, Touching, WORD_BITS, WordId, index_bit};

/// One atomic step of an actor on one word.
#[derive(Clone, Copy, Debug, PartialEq, Eq, Hash)]
pub enum CoreStep {
    /// Looks at a word. A vCPU that finds an interrupt neither ripe for it nor active by it no longer has to look at it.
    Look {
        word: WordId,
    },
    /// Makes an interrupt pending.
    Raise {
        key: Key,
    },
    /// Takes an interrupt to the vCPU's interface, or its causes where it is there, if its word is still `seen`.
    Claim {
        key: Key,
        seen: u64,
    },
    /// Gives back what the interface has of an interrupt.
    GiveBack {
        key: Key,
        back: Back,
    },
    /// Releases an interrupt that was given back.
    Release {
        key: Key,
    },
    /// Looks whether the vCPU is kicked, and clears that. Without a register, a scan begins. With one, the access is
    /// done unless the vCPU is kicked: a read, or a write of a value.
    Poll {
        reg: Option<IccReg>,
        write: Option<u64>,
    },
    /// Kicks a vCPU: it is to scan again.
    Kick {
        vcpu: u32,
    },
    /// Reads or changes the record of an interrupt that is at no interface, if its word is still `seen`.
    Touch {
        key: Key,
        seen: u64,
        kind: Touching,
    },
    /// Asks for an interrupt that is at an interface.
    Want {
        key: Key,
    },
    /// The wire of an interrupt goes up.
    WireUp {
        key: Key,
    },
    /// The wire of an interrupt goes down.
    WireDown {
        key: Key,
    },
    /// EnableLPIs of a vCPU becomes 1, and the vCPU is kicked.
    EnableLpis {
        vcpu: u32,
    },
    /// Looks at a plain word, by its place among them.
    RamLook {
        index: u32,
    },
    /// Stores a plain word, if it is still `seen`.
    RamPut {
        index: u32,
        seen: u64,
        value: u64,
    },
    /// Stores the enables of GICD_CTLR and takes its mark, if the word is still `seen` and the mark is free.
    CtlrTake {
        seen: u64,
        value: u32,
    },
    /// Frees the mark of GICD_CTLR.
    CtlrEnd,
    /// Takes the ITS, if its word is still `seen` and nobody has it.
    TurnTake {
        seen: u64,
    },
    /// Stores the offset of the ITS's queue, and whether it is stalled. `done` has the four doublewords of the
    /// command that this ends, if it was a good one.
    CommandDone {
        offset: u32,
        stalled: bool,
        done: Option<[u64; 4]>,
    },
    /// Gives the ITS back.
    TurnRelease,
    /// Sets the bit of an interrupt in the candidate index of a vCPU.
    Mark {
        key: Key,
        vcpu: u32,
    },
    /// Takes all bits of a word of the vCPU's own candidate index.
    TakeIndex {
        word: u32,
    },
    /// A device gets into a translation line, if its word is still `seen` and has a message.
    LineEnter {
        line: u32,
        seen: u64,
    },
    /// A device leaves the translation line that it is in.
    LineLeave {
        line: u32,
    },
    /// Stores a message and its LPI in a translation line, if that has neither a message nor a device.
    LineFill {
        line: u32,
        device: u32,
        event: u32,
        lpi: u32,
    },
    /// Takes the message out of a translation line.
    LineClose {
        line: u32,
    },
}

impl CoreStep {
    /// The word that a step of an actor is on.
    #[inline(always)]
    pub fn word(&self, actor: u32, shape: &GuestShape) -> WordId
        requires shape { IsShape shape.now }
        requires can { CanStep shape.now actor self.now }
        ensures { result ≡ word_of shape.now actor self.now }
    {
        match *self {
            CoreStep::Look { word } => word,
            CoreStep::Raise { key }
            | CoreStep::Claim { key, .. }
            | CoreStep::GiveBack { key, .. }
            | CoreStep::Release { key }
            | CoreStep::Touch { key, .. }
            | CoreStep::Want { key }
            | CoreStep::WireUp { key }
            | CoreStep::WireDown { key } => WordId::Irq(key),
            CoreStep::Poll { .. } => WordId::Vcpu(actor),
            CoreStep::Kick { vcpu } | CoreStep::EnableLpis { vcpu } => WordId::Vcpu(vcpu),
            CoreStep::RamLook { index } | CoreStep::RamPut { index, .. } => WordId::Plain(index),
            CoreStep::CtlrTake { .. } | CoreStep::CtlrEnd => WordId::Ctlr,
            CoreStep::TurnTake { .. } | CoreStep::CommandDone { .. } | CoreStep::TurnRelease => {
                WordId::Queue
            }
            CoreStep::Mark { key, vcpu } => WordId::Index {
                vcpu,
                word: index_bit(key, shape) / WORD_BITS,
            },
            CoreStep::TakeIndex { word } => WordId::Index { vcpu: actor, word },
            CoreStep::LineEnter { line, .. }
            | CoreStep::LineLeave { line }
            | CoreStep::LineFill { line, .. }
            | CoreStep::LineClose { line } => WordId::Line(line),
        }
    }
}
