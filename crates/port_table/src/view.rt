//! What the seats of a shared table know. Such values exist in proofs alone.
use port_ops::Made;
use scn_base::ListOf;

/// An actor, with the steps that it made, oldest first.
#[derive(Drop)]
pub struct Account {
    pub actor: u32,
    pub own: ListOf<Made>,
}

/// What a seat of a guest's table knows.
#[derive(Drop)]
pub enum View {
    /// The root, through which no steps are made: which actors were split off, and the steps of each that was joined again.
    Root {
        split: ListOf<u32>,
        joined: ListOf<Account>,
    },
    /// An actor that was split off: the steps that it made.
    Out {
        actor: u32,
        own: ListOf<Made>,
    },
    /// An actor that was joined again.
    Spent,
}
