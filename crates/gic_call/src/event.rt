//! The events of an ideal GIC.
use crate::touch::Touching;
use floor_registers::{DeviceOp, Enables, GuestOp, IccReg, Irq, Key};
use gic_open::PlainWord;

/// What happens in the ideal controller of one guest, at one moment.
#[derive(Clone, Copy, Debug, PartialEq, Eq, Hash)]
pub enum Event {
    /// Software, a message, an SGI, an INT command or an MSI makes an interrupt pending.
    Raise {
        key: Key,
    },
    /// A wire goes up.
    Up {
        key: Key,
    },
    /// A wire goes down.
    Down {
        key: Key,
    },
    /// EnableLPIs of a vCPU's redistributor becomes 1.
    Enable {
        vcpu: u32,
    },
    /// The record of an interrupt that is at no CPU interface is read or changed.
    Touch {
        key: Key,
        touching: Touching,
    },
    /// An interrupt gets to a vCPU's CPU interface.
    Reach {
        key: Key,
        vcpu: u32,
    },
    /// An interrupt that is active at a vCPU's CPU interface becomes pending there too.
    Take {
        key: Key,
        vcpu: u32,
    },
    /// An interrupt leaves a vCPU's CPU interface.
    Leave {
        key: Key,
        vcpu: u32,
    },
    /// A vCPU reads a register of its CPU interface, or writes a value to it.
    Cpu {
        vcpu: u32,
        reg: IccReg,
        write: Option<u64>,
    },
    /// What is stored at a place is read.
    Read {
        place: Place,
    },
    /// A value is stored in a plain word.
    Put {
        word: PlainWord,
        value: u64,
    },
    /// A write of GICD_CTLR stores its group enables, and takes the mark that RWP shows.
    CtlrBegin {
        enables: Enables,
    },
    /// The mark is free again: each interrupt has a copy of the enables.
    CtlrEnd,
    /// An actor takes the ITS.
    ItsBegin,
    /// It gives the ITS back.
    ItsEnd,
    /// The command queue changes: it is at this offset now, in bytes from its start.
    Queue {
        offset: u32,
        change: QueueChange,
    },
}

/// What is read outside of the records of interrupts.
#[derive(Clone, Copy, Debug, PartialEq, Eq, Hash)]
pub enum Place {
    /// A plain word.
    Word { word: PlainWord },
    /// The offset of the command queue, and whether it is stalled.
    Queue,
    /// The group enables of GICD_CTLR, and whether a write is still copying them.
    Ctlr,
    /// EnableLPIs of a vCPU's redistributor.
    Lpis { vcpu: u32 },
}

/// What becomes of the command queue.
#[derive(Clone, Copy, Debug, PartialEq, Eq, Hash)]
pub enum QueueChange {
    /// It is not stalled, by a write of a register.
    Runs,
    /// The command of these doublewords is done.
    Done { words: [u64; 4] },
    /// It stalls at a command with the fault of this number.
    Stalls { fault: u8 },
}

/// What an event hands out to the actor that makes it.
#[derive(Clone, Copy, Debug, PartialEq, Eq, Hash)]
pub enum Found {
    /// Nothing.
    Nothing,
    /// The record of an interrupt, as it was before the event.
    Record {
        irq: Irq,
    },
    /// What an access of a CPU interface register reads, if it reads.
    Answer {
        value: Option<u64>,
    },
    /// A plain word, as it was before the event.
    Word {
        value: u64,
    },
    /// The queue's offset, and whether it is stalled.
    Queue {
        offset: u32,
        is_stalled: bool,
    },
    /// The group enables, and whether a write is still copying them.
    Ctlr {
        enables: Enables,
        is_spreading: bool,
    },
    /// EnableLPIs.
    Lpis {
        is_on: bool,
    },
}

/// What an actor calls for.
#[derive(Clone, Copy, Debug, PartialEq, Eq, Hash)]
pub enum Operation {
    /// A vCPU's access.
    Access { op: GuestOp },
    /// A device's event.
    Device { op: DeviceOp },
    /// A vCPU enters a PE, leaves one, or looks whether it was kicked.
    Residence,
}

/// One entry of a history of a guest. Actors are numbered: the vCPUs first, and then the devices.
#[derive(Clone, Copy, Debug, PartialEq, Eq, Hash)]
pub enum Moment {
    /// An actor's call begins.
    Begin {
        actor: u32,
        operation: Operation,
    },
    /// An event happens, and hands something out.
    Happens {
        actor: u32,
        event: Event,
        found: Found,
    },
    /// An actor's call ends, with what it read.
    End {
        actor: u32,
        answer: Option<u64>,
    },
}
