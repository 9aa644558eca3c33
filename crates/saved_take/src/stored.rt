//! Whether the registers of the ITS hold what writes store.
ghost use Rattle.std.specs.Prelude.{◌≡◌, ◌==◌, ◌↔◌, IsTrue};
ghost use Rattle.saved_guest.specs.IdealGuests.Registers.{baser_bits};
ghost use Rattle.saved_guest.specs.IdealGuests.Sound.{IsSound};
ghost use Rattle.saved_take.specs.Back.{IsWithoutIts, IsStored};

use saved_guest::{IdealGuest, PlainWord, baser_after};

/// Whether the registers of the ITS are 0, its queue is at its start, and it does not stall.
fn is_without_its(state: &IdealGuest) -> bool
    requires { IsSound state.now }
    ensures { IsTrue result ↔ IsWithoutIts state.now }
{
    state.word(PlainWord::ItsCtlr) == 0
        && state.word(PlainWord::Cbaser) == 0
        && state.word(PlainWord::Cwriter) == 0
        && state.word(PlainWord::Baser0) == 0
        && state.word(PlainWord::Baser1) == 0
        && state.offset == 0
        && !state.is_stalled
}

/// Whether a register of a table has only bits that are stored.
fn is_baser(word: u64) -> bool
    ensures { result ≡ (word == baser_bits word) }
{
    word == baser_after(false, 0, word)
}

/// Whether the registers of the ITS hold only bits that writes store, and those of a guest without LPIs nothing. Then what is saved of the guest tells it again.
pub fn is_stored(state: &IdealGuest) -> bool
    requires { IsSound state.now }
    ensures { IsTrue result ↔ IsStored state.now }
{
    state.word(PlainWord::ItsCtlr) == u64::from(state.is_its_enabled())
        && is_baser(state.word(PlainWord::Baser0))
        && is_baser(state.word(PlainWord::Baser1))
        && (state.shape.lpis != 0 || is_without_its(state))
}
