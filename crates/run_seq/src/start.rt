//! Where a run begins.
ghost use Rattle.std.specs.Prelude.{◌≡◌, IfOk, length};
ghost use Rattle.law_ends_agree.specs.Calls.{shapes_of};
ghost use Rattle.law_ends_agree.specs.ScnBase.declared.step.Mode.TheVariants.{Schedule};
ghost use Rattle.law_ends_agree.specs.ScnBase.Good.{IsGood};
ghost use Rattle.law_ends_agree.specs.ScnBase.Standing.{ResidentsExist, opening_pes as pes_at_opening};

use law_ends_agree::{Pes, Scenario, opening_pes};
use std::alloc::{AllocError, Global};

/// Where a run begins, on guests that opened.
#[derive(Drop)]
pub struct Start {
    /// How many guests there are, 1 to 4.
    pub guests: u32,
    /// The list registers of each PE, 1 to 16.
    pub lrs: u32,
    /// Which vCPU stands on each PE, of which there are 1 to 8.
    pub pes: Pes,
}

impl Start {
    /// Where a scenario begins: on PE 0, 1, .. stand the vCPUs in order of guest and number, as far as both last. An error where
    /// memory is refused.
    pub fn of(alloc: Global, scenario: &Scenario) -> Result<Start, AllocError>
        requires good { IsGood Schedule scenario.now }
        ensures value { IfOk result (λ start. start ≡ record {
          guests = length scenario.now.guests;
          lrs = scenario.now.lrs;
          pes = pes_at_opening scenario.now.pes (shapes_of scenario.now.guests);
        }) }
        ensures exist { IfOk result (λ start. ResidentsExist (shapes_of scenario.now.guests) start.pes) }
    {
        Ok(Start {
            guests: scenario.guests.len() as u32,
            lrs: scenario.lrs,
            pes: opening_pes(alloc, scenario.pes, scenario.guests.as_slice())?,
        })
    }
}
