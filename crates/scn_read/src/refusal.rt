//! Why no scenario is answered.
ghost use Rattle.std.specs.Prelude.{◌≡◌};
ghost use Rattle.scn_read.specs.declared.refusal.ReadRefusal.TheVariants.{NoMemory};

use scn_base::Fault;
use std::alloc::AllocError;
use std::error::Error;
use std::fmt;

/// Why no scenario is answered.
#[derive(Clone, Copy, Debug, PartialEq, Eq, Hash)]
pub enum ReadRefusal {
    /// The value is no scenario.
    Bad(Fault),
    /// Memory was refused.
    NoMemory,
}

/// The fault, or that memory is out.
impl fmt::Display for ReadRefusal {
    ghost use Rattle.std.specs.Prelude.{Some};
    ghost use Rattle.scn_read.specs.Shown.{refusal_text};

    ghost output = { λ refusal. Some (refusal_text refusal) };

    fn fmt<W: fmt::Write>(&self, f: &mut fmt::Formatter<W>) -> fmt::Result {
        match self {
            ReadRefusal::Bad(fault) => write!(f, "{fault}"),
            ReadRefusal::NoMemory => write!(f, "out of memory"),
        }
    }
}

impl Error for ReadRefusal {}

impl From<AllocError> for ReadRefusal {
    ghost from_gives = { λ _ refusal. refusal ≡ NoMemory };

    fn from(_error: AllocError) -> Self {
        ReadRefusal::NoMemory
    }
}
