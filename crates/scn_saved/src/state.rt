//! The state of one guest, apart from what it has of each kind and from how it opened.
use scn_base::{ColEnds, DevEnds, EvtEnds, Key, ListOf};

/// The registers of each vCPU's CPU interface, by vCPU from 0.
pub type CpuStates = ListOf<CpuState>;
/// Records of interrupts, in the order of their keys.
pub type RecStates = ListOf<RecState>;
/// The registers of each vCPU's redistributor, by vCPU from 0.
pub type RedistStates = ListOf<RedistState>;
/// Words of memory, by rising index.
pub type RamStates = ListOf<RamState>;

/// The state of one guest between two steps.
#[derive(Debug, Drop)]
pub struct GuestState {
    /// The two group enables of GICD_CTLR, at their bits: 0 to 3.
    pub gicd: u32,
    /// The CPU interface of each vCPU.
    pub cpu: CpuStates,
    /// The interrupts whose records are not as the guest opened, or whose wires a device has moved.
    pub rec: RecStates,
    /// The redistributor of each vCPU.
    pub redist: RedistStates,
    /// The ITS; none exactly where the guest has no LPIs.
    pub its: Option<ItsState>,
    /// The devices that are mapped, by number.
    pub dev: DevEnds,
    /// The events that are mapped, by device and number.
    pub evt: EvtEnds,
    /// The collections that are mapped, by number.
    pub col: ColEnds,
    /// The words of memory that are not 0.
    pub ram: RamStates,
}

/// The registers of one vCPU's CPU interface, and its EnableLPIs.
#[derive(Clone, Copy, Debug, PartialEq, Eq, Hash)]
pub struct CpuState {
    /// ICC_PMR: a multiple of 8 from 0 to 248.
    pub pmr: u8,
    /// ICC_BPR0: 2 to 7.
    pub bpr0: u8,
    /// ICC_BPR1 as it is stored, whatever CBPR is: 3 to 7.
    pub bpr1: u8,
    /// ICC_CTLR.CBPR.
    pub cbpr: bool,
    /// ICC_CTLR.EOImode.
    pub eoimode: bool,
    /// ICC_IGRPEN0.
    pub en0: bool,
    /// ICC_IGRPEN1.
    pub en1: bool,
    /// GICR_CTLR.EnableLPIs.
    pub lpis: bool,
    /// ICC_AP0R0: a bit for each active level of group 0.
    pub ap0: u32,
    /// ICC_AP1R0: the same of group 1.
    pub ap1: u32,
}

/// The record of one interrupt, and who moved its wire.
#[derive(Clone, Copy, Debug, PartialEq, Eq, Hash)]
pub struct RecState {
    pub key: Key,
    /// It is forwarded to a CPU interface.
    pub enabled: bool,
    /// 0 or 1.
    pub group: u8,
    /// A multiple of 8 from 0 to 248; lower is more urgent.
    pub prio: u8,
    /// It is edge-triggered, or else level-sensitive.
    pub edge: bool,
    /// The level of its wire.
    pub line: bool,
    /// The wire rose since the last acknowledge or clear.
    pub rise: bool,
    /// It was made pending by a register, a message, an SGI, an INT command or an MSI.
    pub soft: bool,
    /// The vCPU by which it is active, or none.
    pub act: Option<u32>,
    /// Of an SPI its affinity, with Aff3 at the bits 31 to 24; of an LPI the vCPU that it is for, or none; none for a private
    /// interrupt.
    pub route: Option<u32>,
    /// Its copy of GICD_CTLR.EnableGrp0.
    pub en0: bool,
    /// Its copy of GICD_CTLR.EnableGrp1.
    pub en1: bool,
    /// The device that moved its wire, or none.
    pub mover: Option<u32>,
}

/// The registers of one vCPU's redistributor that are only stored.
#[derive(Clone, Copy, Debug, PartialEq, Eq, Hash)]
pub struct RedistState {
    /// GICR_PROPBASER.
    pub propbaser: u64,
    /// GICR_PENDBASER, with PTZ as it was written.
    pub pendbaser: u64,
}

/// The registers of the ITS, and how its command queue is.
#[derive(Clone, Copy, Debug, PartialEq, Eq, Hash)]
pub struct ItsState {
    /// GITS_CTLR.Enabled.
    pub enabled: bool,
    /// GITS_CBASER.
    pub cbaser: u64,
    /// GITS_CWRITER: a multiple of 32 below the bytes of the queue.
    pub cwriter: u64,
    /// Where the next command is, in bytes from the start of the queue: a multiple of 32 below its bytes.
    pub offset: u32,
    /// The queue is stalled.
    pub stalled: bool,
    /// The number of the fault at which the queue stalled; 0 where it is not stalled.
    pub fault: u8,
    /// GITS_BASER0 as it reads.
    pub baser0: u64,
    /// GITS_BASER1 as it reads.
    pub baser1: u64,
}

/// One word of memory.
#[derive(Clone, Copy, Debug, PartialEq, Eq, Hash)]
pub struct RamState {
    /// Its number, from 0: it has the bytes from 8 times the number on, the lowest first.
    pub index: u32,
    pub word: u64,
}
