//! What stops the VMM.
use std::alloc::AllocError;
use thiserror::Error;

/// What stops the VMM.
#[derive(Debug, Drop, Error)]
pub enum Fault {
    /// As the machine opened or ended.
    #[error("memory was refused")]
    NoMemory(#[from(alloc)] AllocError),
    #[error("the guest's numbers are out of range")]
    BadGuest,
    /// It is in the middle of a call, or of the wrong kind.
    #[error("an actor is not at rest")]
    NotAtRest,
    /// A trap that is no access of the GIC and of no device.
    #[error("an access that nothing answers")]
    UnknownAccess,
}
