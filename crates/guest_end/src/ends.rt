//! How the guests of a scenario ended.
ghost use Rattle.std.specs.Prelude.{◌≡◌, List, IfOk, map};
ghost use Rattle.gic_ideal.specs.Ends.{ends_of as ends_between};
ghost use Rattle.gic_ideal.specs.IdealGuests.declared.guest.IdealGuest.{IdealGuest};
ghost use Rattle.gic_ideal.specs.IdealGuests.Opening.{opening};
ghost use Rattle.guest_end.specs.Ends.{HaveEnded, AllEndAt, guests_of};

use crate::home::{end_of, state_of};
use gic_ideal::IdealGuest as State;
use port_core::{CpuRec, EndWords, Ends, Guests, ListOf, NoMemory};
use std::alloc::{AllocError, Global};

/// How each guest ended, by its words and the records of its CPU interfaces, which stand one guest's after the other's. An error
/// where memory is refused.
pub fn ends_of(
    alloc: Global,
    guests: &Guests,
    words: &EndWords,
    cpus: &[CpuRec],
) -> Result<Ends, NoMemory>
    requires { HaveEnded guests.now words.now cpus.now }
    ensures { IfOk result (λ ends. (ideals : List IdealGuest) → AllEndAt guests.now words.now cpus.now ideals → ends ≡ ends_between (map opening guests.now) ideals) }
{
    let mut ends = ListOf::new(alloc);
    let mut rest = cpus;
    for (guest, spec) in guests.as_slice().iter().enumerate() {
        let (own, later) = rest.split_at(spec.shape.vcpus as usize);
        ends.push(end_of(alloc, spec, &words.as_slice()[guest], own)?)?;
        rest = later;
    }
    Ok(ends)
}

/// The guests of the ideal controller as they ended, by their words and the records of their CPU interfaces, which stand one guest's
/// after the other's. An error where memory is refused.
pub fn states_of(
    alloc: Global,
    guests: &Guests,
    words: EndWords,
    cpus: &[CpuRec],
) -> Result<Vec<State>, AllocError>
    requires { HaveEnded guests.now words cpus.now }
    ensures { IfOk result (λ states. states.items ≡ guests_of guests.now words cpus.now) }
{
    let mut states = Vec::new(alloc);
    let mut rest = cpus;
    for one in words.into_vec() {
        let guest = &guests.as_slice()[states.len()];
        let (own, later) = rest.split_at(guest.shape.vcpus as usize);
        states.push(state_of(alloc, guest, one, own)?)?;
        rest = later;
    }
    Ok(states)
}
