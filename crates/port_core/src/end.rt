//! The words and tables of guests as a run leaves them.
use core_words::{ItsTables, ListOf};

/// Words, in the order of what they are of.
pub type WordList = ListOf<u64>;

/// The words and the tables of a guest.
#[derive(Drop)]
pub struct GuestWords {
    /// The interrupts, in key order.
    pub irqs: WordList,
    /// The vCPUs.
    pub vcpus: WordList,
    /// The queue of the ITS.
    pub queue: u64,
    /// GICD_CTLR.
    pub ctlr: u64,
    /// The plain words.
    pub plain: WordList,
    /// The tables of the ITS.
    pub tables: ItsTables,
}

/// Those of each guest of a scenario.
pub type EndWords = ListOf<GuestWords>;
