//! The guests that a saved run tells.
ghost use Rattle.std.specs.Prelude.{◌≡◌, All, IfOk};
ghost use Rattle.gic_ideal.specs.IdealGuests.Calls.{IsGoodGuest};
ghost use Rattle.saved_check.specs.SavedGuest.Whole.{AreValidStates};
ghost use Rattle.law_saves_go_on.specs.Resume.{states_of as states_told};

use gic_ideal::IdealGuest;
use saved_check::{GuestSpec, GuestState, NoMemory, told};
use std::alloc::Global;

/// The guests of a saved run as its states tell them. `NoMemory` where memory is refused.
pub fn all_told(
    alloc: Global,
    guests: &[GuestSpec],
    states: &[GuestState],
) -> Result<Vec<IdealGuest>, NoMemory>
    requires good { All IsGoodGuest guests.now }
    requires valid { AreValidStates guests.now states.now }
    ensures { IfOk result (λ all. all.items ≡ states_told guests.now states.now) }
{
    let mut all = Vec::with_capacity(alloc, guests.len())?;
    for (number, guest) in guests.iter().enumerate() {
        all.push_reserved(told(alloc, guest, &states[number])?);
    }
    Ok(all)
}
