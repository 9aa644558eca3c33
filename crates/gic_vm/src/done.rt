//! What the calls of a machine answer.

/// What a call answers that took place.
#[derive(Clone, Copy, Debug, PartialEq, Eq, Hash)]
pub struct Done {
    /// The value that was read; 0 where nothing was.
    pub value: u64,
    /// The vCPUs whose lines the call changed, as bits: vCPU k at bit k.
    pub changed: u32,
}

/// Why a machine is not opened, or a call of it is refused, which then changes nothing.
#[derive(Clone, Copy, Debug, PartialEq, Eq, Hash)]
pub enum Refused {
    /// A number of vCPUs, interrupts or bytes of memory is out of range.
    Shape,
    /// A frame is not at a multiple of 64 KiB, ends beyond 2^52, or has a byte in common with another.
    Layout,
    /// Memory was refused.
    NoMemory,
    /// The machine has no such vCPU or interrupt, or the interrupt has no wire.
    NotThere,
}

/// What is accessed is not the machine's.
#[derive(Clone, Copy, Debug, PartialEq, Eq, Hash)]
pub struct NotMine;

/// Why an access of a system register is not done.
#[derive(Clone, Copy, Debug, PartialEq, Eq, Hash)]
pub enum NotDone {
    /// It is none of the machine's registers, or the machine has no such vCPU.
    NoRegister,
    /// The register has no such access: it takes an exception (UNDEFINED).
    Undefined,
}
