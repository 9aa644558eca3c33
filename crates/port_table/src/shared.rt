//! The words of all guests of a scenario, and the roots of all.
ghost use Rattle.std.specs.Prelude.{◌≡◌, ◌<◌, ℕ, length, map, slice_index_or};
ghost use Rattle.port_table.specs.Ports.{words_told};
ghost use Rattle.port_table.specs.Told.{no_words};

use crate::guest::{GuestRoot, GuestTable};

/// The words that the actors of a scenario share, each guest's its own. Threads share it by reference.
#[derive(Drop)]
pub struct SharedWords {
    pub(crate) guests: Vec<GuestTable>,
    ghost numbered: { (number : ℕ) → number < length guests.items → (slice_index_or (map words_told guests.items) number no_words).number ≡ number },
}

/// The seat of no actor: it is only split and joined.
#[derive(Drop)]
pub struct RootSeat {
    pub(crate) guests: Vec<GuestRoot>,
}
