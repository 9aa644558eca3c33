//! The fault of a scenario: a code and a step.
ghost use Rattle.std.specs.Prelude.{◌≡◌};
ghost use Rattle.scn_base.specs.Codes.{shape_code, limit_code, unknown_register_code, unknown_actor_code, not_loaded_code, pe_busy_code, pe_step_code, wire_level_code, address_code, first_code as first_of_codes, both as both_of};

use std::error::Error;
use std::fmt;

/// A field is missing, unknown or of the wrong kind, or a step has none of the forms.
pub const SHAPE: u8 = 1;
/// A number is outside of its range, or a list is too short or too long.
pub const LIMIT: u8 = 2;
/// A register of the CPU interface is not there, or cannot be read or written as asked.
pub const UNKNOWN_REGISTER: u8 = 3;
/// A guest, a vCPU, a device, a PE or an interrupt is not there.
pub const UNKNOWN_ACTOR: u8 = 4;
/// A vCPU acts that is on no PE, or one leaves a PE that has none.
pub const NOT_LOADED: u8 = 5;
/// A vCPU enters that is on a PE, or enters a PE that has a vCPU.
pub const PE_BUSY: u8 = 6;
/// A step of a PE, where the scenario is run on threads.
pub const PE_STEP: u8 = 7;
/// A wire moves to the level that it has, or is one that another device moved before.
pub const WIRE_LEVEL: u8 = 8;
/// An access of memory is not aligned or not inside, or an offset lies outside of its frame.
pub const ADDRESS: u8 = 9;

/// A law of the codes: their numbers, which scenarios' writers know.
pub fn codes_are_fixed()
    ensures shape { SHAPE ≡ shape_code }
    ensures limit { LIMIT ≡ limit_code }
    ensures unknown_register { UNKNOWN_REGISTER ≡ unknown_register_code }
    ensures unknown_actor { UNKNOWN_ACTOR ≡ unknown_actor_code }
    ensures not_loaded { NOT_LOADED ≡ not_loaded_code }
    ensures pe_busy { PE_BUSY ≡ pe_busy_code }
    ensures pe_step { PE_STEP ≡ pe_step_code }
    ensures wire_level { WIRE_LEVEL ≡ wire_level_code }
    ensures address { ADDRESS ≡ address_code }
{}

/// The first of two codes, where there are any: the lesser.
pub fn first_code(code: Option<u8>, other: Option<u8>) -> Option<u8>
    ensures { result ≡ first_of_codes code other }
{
    match (code, other) {
        (Some(code), Some(other)) => Some(code.min(other)),
        _ => code.or(other),
    }
}

/// Both values, or the first of their faults.
pub fn both<X: Drop, Y: Drop>(first: Result<X, u8>, second: Result<Y, u8>) -> Result<(X, Y), u8>
    ensures { result ≡ both_of first second }
{
    match first {
        Ok(first) => match second {
            Ok(second) => Ok((first, second)),
            Err(code) => Err(code),
        },
        Err(code) => match second {
            Ok(_) => Err(code),
            Err(other) => Err(code.min(other)),
        },
    }
}

/// Why a JSON value is no scenario.
#[derive(Clone, Copy, Debug, PartialEq, Eq, Hash)]
pub struct Fault {
    /// One of the codes from `SHAPE` to `ADDRESS`.
    pub code: u8,
    /// The number of the step from 1, or 0 for all that stands outside `steps`.
    pub step: u32,
}

/// The fault's code and its step.
impl fmt::Display for Fault {
    ghost use Rattle.std.specs.Prelude.{Some};
    ghost use Rattle.scn_base.specs.Shown.{fault_text};

    ghost output = { λ fault. Some (fault_text fault) };

    fn fmt<W: fmt::Write>(&self, f: &mut fmt::Formatter<W>) -> fmt::Result {
        write!(f, "code {} step {}", self.code, self.step)
    }
}

impl Error for Fault {}
