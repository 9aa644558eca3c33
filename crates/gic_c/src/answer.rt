//! What C is answered.
ghost use Rattle.std.specs.Prelude.{◌≡◌};
ghost use Rattle.gic_c.specs.Answer.{errno_of, status_of, shown, found as found_of, accessed as accessed_of};

use vm_saved::{Done, NotDone, Refused, Span};

/// Why a call is refused, which then changes nothing.
#[derive(Clone, Copy, Debug, PartialEq, Eq, Hash)]
pub(crate) enum Refusal {
    /// ENOENT: what is named is not the GIC's.
    NotFound,
    /// ENOMEM: memory was refused.
    NoMemory,
    /// EACCES: the access takes an exception (UNDEFINED).
    NoAccess,
    /// EINVAL: an argument is none, or the handle is closed, or, of a call that opens, open.
    Invalid,
    /// EDOM: the state of the machine is none that an image tells.
    Untold,
    /// ERANGE: there is less room than an image needs.
    TooSmall,
}

impl Refusal {
    /// The negative error number.
    pub(crate) fn errno(self) -> i32
        ensures { result ≡ errno_of self }
    {
        match self {
            Refusal::NotFound => -2,
            Refusal::NoMemory => -12,
            Refusal::NoAccess => -13,
            Refusal::Invalid => -22,
            Refusal::Untold => -33,
            Refusal::TooSmall => -34,
        }
    }
}

/// What a call that is not refused comes to.
#[derive(Clone, Copy, Debug, PartialEq, Eq)]
pub(crate) enum Reply {
    /// It was done.
    Done(Done),
    /// Nothing was done yet: these bytes of the guest's memory have to be fed first.
    Fetch(Span),
}

/// What C has of a call's answer.
#[repr(C)]
#[derive(Clone, Copy, Debug, PartialEq, Eq, Hash)]
pub struct RvDone {
    /// What was read.
    pub value: u64,
    /// The vCPUs whose lines the call changed, as bits.
    pub changed: u32,
    /// 0.
    pub reserved: u32,
    /// Where the bytes of the guest's memory begin that have to be fed.
    pub address: u64,
    /// How many these are.
    pub length: u64,
}

/// What is shown of a call that is refused.
const NOTHING: RvDone = RvDone {
    value: 0,
    changed: 0,
    reserved: 0,
    address: 0,
    length: 0,
};

impl RvDone {
    /// Shows an answer to C, and tells its status: zeros where the call is refused.
    pub(crate) fn show(&mut self, answer: Result<Reply, Refusal>) -> i32
        ensures status { result ≡ status_of answer }
        ensures done { self.new ≡ shown answer }
    {
        match answer {
            Ok(Reply::Done(done)) => {
                *self = RvDone {
                    value: done.value,
                    changed: done.changed,
                    ..NOTHING
                };
                0
            }
            Ok(Reply::Fetch(span)) => {
                *self = RvDone {
                    address: span.address,
                    length: span.bytes,
                    ..NOTHING
                };
                1
            }
            Err(refusal) => {
                *self = NOTHING;
                refusal.errno()
            }
        }
    }
}

/// The answer of a call that names an interrupt or a vCPU.
pub(crate) fn found(answer: Result<Done, Refused>) -> Result<Reply, Refusal>
    ensures { result ≡ found_of answer }
{
    match answer {
        Ok(done) => Ok(Reply::Done(done)),
        Err(_) => Err(Refusal::NotFound),
    }
}

/// The answer of an access of a system register.
pub(crate) fn accessed(answer: Result<Done, NotDone>) -> Result<Reply, Refusal>
    ensures { result ≡ accessed_of answer }
{
    match answer {
        Ok(done) => Ok(Reply::Done(done)),
        Err(NotDone::NoRegister) => Err(Refusal::NotFound),
        Err(NotDone::Undefined) => Err(Refusal::NoAccess),
    }
}
