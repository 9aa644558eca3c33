//! Traces: what the actors of one guest did, event by event.
use crate::place::Place;
use floor_calls::{Actor, DeviceOp, GuestOp, GuestSpec, IccReg, Key, ListOf, Touching};

/// A recorded run of a guest, in the order of its moments.
#[derive(Debug, Drop)]
pub struct Trace {
    /// The guest, as it opens.
    pub guest: GuestSpec,
    /// What happened, at most 100,000 events.
    pub events: EventList,
}

/// Events, oldest first.
pub type EventList = ListOf<TraceEvent>;

/// One event of a trace.
#[derive(Clone, Copy, Debug, PartialEq, Eq, Hash)]
pub struct TraceEvent {
    /// Who acts: a vCPU or a device of guest 0.
    pub by: Actor,
    /// What happens.
    pub act: Act,
}

/// What an actor calls for.
#[derive(Clone, Copy, Debug, PartialEq, Eq, Hash)]
pub enum TraceCall {
    /// A vCPU accesses a register or memory.
    Vcpu(GuestOp),
    /// A device moves a wire, or sends a message.
    Device(DeviceOp),
    /// The vCPU enters a PE.
    Enter,
    /// The vCPU leaves its PE.
    Exit,
}

/// What happens in an event, with what it hands out, as the trace has it.
#[derive(Clone, Copy, Debug, PartialEq, Eq, Hash)]
pub enum Act {
    /// The actor's call begins: `begin`.
    Begin(TraceCall),
    /// It ends, with what it read, if it reads: `end`.
    End(Option<u64>),
    /// An interrupt gets to the vCPU's CPU interface: `reach`.
    Reach(Key),
    /// One that is active there becomes pending there too: `take`.
    Take(Key),
    /// An interrupt leaves the vCPU's CPU interface: `leave`.
    Leave(Key),
    /// An interrupt becomes pending, other than by a wire: `raise`.
    Raise(Key),
    /// An interrupt's wire goes up: `up`.
    Up(Key),
    /// An interrupt's wire goes down: `down`.
    Down(Key),
    /// A register of the CPU interface is read, or written: `cpu`.
    Cpu {
        reg: IccReg,
        write: Option<u64>,
        answer: Option<u64>,
    },
    /// The record of an interrupt is read or changed: `touch`.
    Touch {
        key: Key,
        what: Touching,
        answer: Option<u64>,
    },
    /// EnableLPIs of the redistributor that the call accesses becomes 1: `enable`.
    Enable,
    /// A place is read: `read`.
    Read {
        place: Place,
        value: u64,
    },
    /// A value is put somewhere: `put`.
    Put {
        place: Place,
        value: u64,
    },
    /// A write of GICD_CTLR stores its two group enables, 0 to 3: `ctlr_begin`.
    CtlrBegin {
        enables: u32,
    },
    /// Each interrupt has a copy of them: `ctlr_end`.
    CtlrEnd,
    /// The actor takes the ITS: `its_begin`.
    ItsBegin,
    /// It gives the ITS back: `its_end`.
    ItsEnd,
    /// The command queue is at a byte offset now, and stalled or not: `queue`.
    Queue {
        offset: u32,
        stalled: bool,
    },
}
