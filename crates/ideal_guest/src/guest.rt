//! The state of one guest.
use floor_calls::{CpuRec, Enables, GuestShape, ItsTables, ListOf};
use irq_records::IrqRecords;

/// The state of one guest under the ideal controller.
#[derive(Drop)]
pub struct IdealGuest {
    pub shape: GuestShape,
    /// The record of each interrupt, in key order.
    pub irqs: IrqRecords,
    /// The record of each vCPU's CPU interface.
    pub cpus: ListOf<CpuRec>,
    /// The group enables of GICD_CTLR.
    pub enables: Enables,
    /// The plain words, by place: memory, and the registers that are only stored.
    pub words: ListOf<u64>,
    /// Where the next command of the ITS is, in bytes from the start of its queue.
    pub offset: u32,
    /// Whether the queue is stalled.
    pub is_stalled: bool,
    /// What the ITS has mapped.
    pub tables: ItsTables,
}
