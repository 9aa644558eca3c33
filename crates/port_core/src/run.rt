//! What runs of steps are made of.
use crate::step::CoreStep;
use core_words::ItsTables;

/// A step that an actor made, with what it handed out. It exists in proofs alone.
#[derive(Drop)]
pub struct Made {
    pub step: CoreStep,
    /// The word as the step found it.
    pub found: u64,
    /// The word as the step left it.
    pub left: u64,
    /// The tables of the ITS, where the step took it.
    pub tables: Option<ItsTables>,
}

/// A step of a guest's run: who made it. It exists in proofs alone.
#[derive(Drop)]
pub struct Entry {
    pub actor: u32,
    pub made: Made,
}
