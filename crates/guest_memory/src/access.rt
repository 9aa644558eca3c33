//! Accesses of memory-mapped registers.
ghost use Rattle.std.specs.Prelude.{◌≡◌};
ghost use Rattle.guest_memory.specs.Access.{op_of};

use ideal_guest::{Frame, GuestOp};

/// An access of 1, 2, 4 or 8 bytes at an offset in a frame: a read, or a write of a value of as many bytes.
#[derive(Clone, Copy, Debug, PartialEq, Eq)]
pub struct Access {
    pub frame: Frame,
    pub offset: u32,
    pub size: u32,
    pub write: Option<u64>,
}

impl Access {
    /// The operation of the ideal controller that it is.
    pub fn operation(&self) -> GuestOp
        ensures { result ≡ op_of self.now }
    {
        GuestOp::Mem {
            frame: self.frame,
            offset: self.offset,
            size: self.size,
            write: self.write,
        }
    }
}
