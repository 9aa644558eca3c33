//! What a run answers, and the state in which it ends.
use gic_ram::{Key, ListOf};

/// One answer a step.
pub type Answers = ListOf<Answer>;
/// One end a guest.
pub type Ends = ListOf<End>;
/// ICH_HCR, and then each list register.
pub type LrList = ListOf<u64>;
/// One entry for each line of a vCPU's CPU interface.
pub type CpuEnds = ListOf<CpuEnd>;
/// One entry for each line of an interrupt.
pub type IrqEnds = ListOf<IrqEnd>;
/// One entry for each device that is mapped.
pub type DevEnds = ListOf<DevEnd>;
/// One entry for each event that is mapped.
pub type EvtEnds = ListOf<EvtEnd>;
/// One entry for each collection that is mapped.
pub type ColEnds = ListOf<ColEnd>;

/// What a run answered, and the state in which it ended.
#[derive(Debug, Drop)]
pub struct RunOut {
    pub answers: Answers,
    pub ends: Ends,
}

/// What a step answered.
#[derive(Debug, Drop)]
pub enum Answer {
    /// The step reads nothing.
    Nothing,
    /// The value that was read.
    Value(u64),
    /// The list registers of a PE.
    Regs(LrList),
}

/// How a guest ended: an entry for each line that is printed.
#[derive(Debug, Drop)]
pub struct End {
    /// GICD_CTLR.
    pub gicd: Option<u32>,
    pub cpus: CpuEnds,
    pub irqs: IrqEnds,
    pub its: Option<ItsEnd>,
    pub devs: DevEnds,
    pub evts: EvtEnds,
    pub cols: ColEnds,
}

/// The end of one vCPU's CPU interface.
#[derive(Clone, Copy, Debug, PartialEq, Eq, Hash)]
pub struct CpuEnd {
    pub vcpu: u32,
    /// The record as ICH_VMCR holds it.
    pub vmcr: u32,
    pub ap0: u32,
    pub ap1: u32,
    pub lpis: bool,
}

/// The end of one interrupt.
#[derive(Clone, Copy, Debug, PartialEq, Eq, Hash)]
pub struct IrqEnd {
    pub key: Key,
    pub enabled: bool,
    /// 0 or 1.
    pub group: u8,
    pub prio: u8,
    pub edge: bool,
    pub line: bool,
    pub rise: bool,
    pub soft: bool,
    pub act_by: Option<u32>,
    pub to: Option<u32>,
}

/// The end of the ITS.
#[derive(Clone, Copy, Debug, PartialEq, Eq, Hash)]
pub struct ItsEnd {
    pub ctlr: u32,
    pub cbaser: u64,
    pub cwriter: u64,
    pub creadr: u64,
    /// The code of the command that stalls the queue, or 0.
    pub fault: u8,
}

/// A device that is mapped.
#[derive(Clone, Copy, Debug, PartialEq, Eq, Hash)]
pub struct DevEnd {
    pub device: u32,
    /// How many bits its EventIDs have.
    pub bits: u32,
}

/// An event that is mapped.
#[derive(Clone, Copy, Debug, PartialEq, Eq, Hash)]
pub struct EvtEnd {
    pub device: u32,
    pub event: u32,
    /// The INTID of its LPI.
    pub id: u32,
    pub icid: u16,
}

/// A collection that is mapped.
#[derive(Clone, Copy, Debug, PartialEq, Eq, Hash)]
pub struct ColEnd {
    pub icid: u16,
    pub vcpu: u32,
}
