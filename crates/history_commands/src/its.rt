//! What a call that has the ITS knows of it.
/// What a call that has the ITS knows of its registers and of its queue.
#[derive(Clone, Copy, Debug, PartialEq, Eq, Hash)]
pub struct Its {
    /// What GITS_CTLR stores.
    pub ctlr: u64,
    /// What GITS_CBASER stores.
    pub cbaser: u64,
    /// What GITS_CWRITER stores.
    pub cwriter: u64,
    /// Where the next command is, in bytes from the start of the queue.
    pub offset: u32,
    /// Whether the queue is stalled.
    pub is_stalled: bool,
}
