//! The record of a CPU interface.

/// The record of one vCPU's CPU interface.
#[derive(Clone, Copy, Debug, PartialEq, Eq, Hash)]
pub struct CpuRec {
    /// ICC_PMR: the priority mask. Only interrupts of lower value are signalled.
    pub pmr: u8,
    /// ICC_BPR0: the binary point of group 0, 0 to 7.
    pub bpr0: u8,
    /// ICC_BPR1: the binary point of group 1, 0 to 7.
    pub bpr1: u8,
    /// ICC_CTLR.CBPR: group 1 uses the binary point of group 0.
    pub cbpr: bool,
    /// ICC_CTLR.EOImode: an end of interrupt drops the priority alone.
    pub eoimode: bool,
    /// ICC_IGRPEN0.
    pub en0: bool,
    /// ICC_IGRPEN1.
    pub en1: bool,
    /// GICR_CTLR.EnableLPIs.
    pub lpis: bool,
    /// ICC_AP0R0: bit n is 1 where priority level n is active in group 0.
    pub ap0: u32,
    /// ICC_AP1R0: the same of group 1.
    pub ap1: u32,
}
