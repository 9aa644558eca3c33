//! Whole scenarios.
ghost use Rattle.std.specs.Prelude.{◌≡◌, ◌↔◌, IsTrue, IfOk, All, length};
ghost use Rattle.scn_base.specs.Standing.{IsStanding};
ghost use Rattle.scn_base.specs.Good.{IsGood, is_formed, stand_in_turn};
ghost use Rattle.gic_guest.specs.Good.{IsGoodGuest};

use crate::standing::Standing;
use crate::step::{Mode, Step};
use gic_guest::{GuestSpec, Guests, ListOf, is_list_register_count};
use std::alloc::{AllocError, Global};

/// The most PEs of a scenario, which has at least one.
pub const MAX_PES: u32 = 8;
/// The most guests of a scenario, which has at least one.
pub const MAX_GUESTS: usize = 4;
/// The most bytes of memory that a guest of a written scenario has. A guest may have more.
pub const MAX_SCENARIO_RAM: u32 = 262_144;
/// The most steps of a scenario.
pub const MAX_STEPS: usize = 100_000;

/// A law of the limits: their numbers, which scenarios' writers know.
pub fn limits_are_fixed()
    ensures pes { MAX_PES ≡ 8 }
    ensures guests { MAX_GUESTS ≡ 4 }
    ensures memory { MAX_SCENARIO_RAM ≡ 262144 }
    ensures steps { MAX_STEPS ≡ 100000 }
{}

/// Steps, in order; their numbers count from 1.
pub type Steps = ListOf<Step>;

/// What is run.
#[derive(Debug, Drop)]
pub struct Scenario {
    /// PEs, 1 to 8.
    pub pes: u32,
    /// List registers of each PE, 1 to 16.
    pub lrs: u32,
    /// 1 to 4 guests.
    pub guests: Guests,
    /// At most 100000 steps.
    pub steps: Steps,
}

/// Whether each guest is good.
fn are_good_guests(guests: &[GuestSpec]) -> bool
    ensures { IsTrue result ↔ All IsGoodGuest guests.now }
{
    guests.iter().all(|guest| guest.is_good())
}

/// Whether each step can be done, from a standing on.
fn are_good_steps(mode: Mode, mut standing: Standing, steps: &[Step]) -> bool
    requires { IsStanding standing }
    ensures { IsTrue result ↔ (All (λ step. IsTrue (is_formed mode (length standing.pes) standing.shapes step)) steps.now
        × IsTrue (stand_in_turn mode standing steps.now)) }
{
    for step in steps {
        if standing.fault_of(mode, step).is_some() {
            return false;
        }
        standing.follow(step);
    }
    true
}

impl Scenario {
    /// Whether the scenario has no fault in this mode. Every call that takes a scenario requires it. It takes time
    /// linear in the scenario, and memory for the standing; an error where that is refused.
    pub fn is_good(&self, alloc: Global, mode: Mode) -> Result<bool, AllocError>
        ensures { IfOk result (λ good. IsTrue good ↔ IsGood mode self.now) }
    {
        let guests = self.guests.as_slice();
        if !(1..=MAX_PES).contains(&self.pes) || !is_list_register_count(u64::from(self.lrs)) {
            return Ok(false);
        }
        if !(1..=MAX_GUESTS).contains(&guests.len()) || self.steps.len() > MAX_STEPS {
            return Ok(false);
        }
        if !are_good_guests(guests) {
            return Ok(false);
        }
        let standing = Standing::opening(alloc, self.pes, guests)?;
        Ok(are_good_steps(mode, standing, self.steps.as_slice()))
    }
}
