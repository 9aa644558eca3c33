//! The owner word of a place: a state, and the number of its traveller's next step.
ghost use Rattle.std.specs.Prelude.{◌≡◌, ◌<◌, ◌^◌};
ghost use Rattle.vcpu_shelf.specs.Word.{is_free as free_in, is_finished as finished_in, next_in as number_in, owner_word as word_with, stored_word as word_stored};

/// How many states a word can tell apart.
pub const STATES: u64 = 4;

/// The traveller waits in its slot, and has steps to do.
pub const FREE: u64 = 0;

/// The traveller is out with one seat.
pub const TAKEN: u64 = 1;

/// The traveller waits in its slot, and is done.
pub const FINISHED: u64 = 2;

/// The word of a state with the number of the next step.
pub(crate) fn owner_word(state: u64, next: u64) -> u64
    requires state { state < STATES }
    requires next { next < 2 ^ 62 }
    ensures { result ≡ word_with state next }
{
    state + STATES * next
}

/// The word of a traveller on the shelf.
pub(crate) fn stored_word(done: bool, next: u32) -> u64
    ensures { result ≡ word_stored done next }
{
    owner_word(if done { FINISHED } else { FREE }, u64::from(next))
}

/// The number of the next step, by a word.
pub(crate) fn next_in(word: u64) -> u64
    ensures { result ≡ number_in word }
{
    word / STATES
}

/// Whether a word says free.
pub(crate) fn is_free(word: u64) -> bool
    ensures { result ≡ free_in word }
{
    word % STATES == FREE
}

/// Whether a word says finished.
pub(crate) fn is_finished(word: u64) -> bool
    ensures { result ≡ finished_in word }
{
    word % STATES == FINISHED
}
