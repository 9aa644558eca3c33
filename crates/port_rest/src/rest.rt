//! Whether an actor is at rest.
ghost use Rattle.std.specs.Prelude.{◌≡◌, ◌↔◌, IsTrue, []};
ghost use Rattle.floor_core.specs.Core.{has_no_cand as has_no_cand_in, owes_nothing as owes_nothing_in, is_settled as is_settled_in};

use floor_core::{Local, NO_VCPUS};

/// The actor has no candidate.
fn has_no_cand(local: &Local) -> bool
    ensures { result ≡ has_no_cand_in local.now }
{
    local.cands.words.iter().all(|word| *word == 0)
}

/// Nothing is at the actor's interface.
fn has_none_at(local: &Local) -> bool
    ensures { IsTrue result ↔ (local.now.at ≡ []) }
{
    local.at.as_slice().is_empty()
}

/// Whether the actor owes nothing: no kick and no mark, and it has no candidate.
pub fn owes_nothing(local: &Local) -> bool
    ensures { result ≡ owes_nothing_in local.now }
{
    local.owes.0 == NO_VCPUS.0 && local.marks.vcpus.0 == NO_VCPUS.0 && has_no_cand(local)
}

/// Whether the actor owes nothing, has neither the ITS nor the mark of GICD_CTLR, and is in no translation line.
pub fn is_settled(local: &Local) -> bool
    ensures { result ≡ is_settled_in local.now }
{
    owes_nothing(local) && !local.turn && !local.ctlr && local.line.is_none()
}

/// Whether the actor owes nothing, and nothing is at its interface.
pub fn is_at_ease(local: &Local) -> bool
    ensures { IsTrue result ↔ (IsTrue (owes_nothing_in local.now) × local.now.at ≡ []) }
{
    owes_nothing(local) && has_none_at(local)
}

/// Whether the actor owes nothing, has neither the ITS nor the mark of GICD_CTLR, is in no translation line, and nothing is at its interface: so are a
/// device, and a vCPU on no PE, between two calls.
pub fn is_off(local: &Local) -> bool
    ensures { IsTrue result ↔ (IsTrue (is_settled_in local.now) × local.now.at ≡ []) }
{
    is_settled(local) && has_none_at(local)
}
