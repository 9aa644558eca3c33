//! Where the tables of an ITS are.
use port_ops::ItsTables;

/// The tables of a guest's ITS, or the number of the actor that has taken them.
#[derive(Drop)]
pub(crate) enum ItsHome {
    Here(ItsTables),
    TakenBy(u32),
}
