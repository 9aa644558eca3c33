//! What a call has read of the command of the ITS that it is at.
ghost use Rattle.std.specs.Prelude.{◌≡◌, ◌<◌, Some, false};
ghost use Rattle.std.specs.Option.{option_map_or};
ghost use Rattle.legal_play.specs.Calls.{word_address, memory_at, command_words as command_words_of};
ghost use Rattle.legal_play.specs.HistoryPlay.HistoryCalls.Found.{word_in};
ghost use Rattle.legal_play.specs.Histories.{takes_commands as takes_commands_of};
ghost use Rattle.legal_play.specs.HistoryPlay.HistoryCheck.Ready.{IsReady};
ghost use Rattle.trace_told.specs.Told.{leads_on as leads_on_to, word_fetched as word_fetched_at, has_read as has_read_at, as_fetched, command_end as command_end_of, change_at as change_at_of};

use legal_play::{
    CallFound as Found, Event, Made, Operation, Place, PlainWord, QueueChange, State, extract,
    is_beside, queue_address, reads, split, takes_commands,
};

/// The bytes of a doubleword.
const DOUBLEWORD_BYTES: u32 = 8;

/// Whether the next command may be read after an event.
fn leads_on(event: &Event) -> bool
    ensures { result ≡ leads_on_to event.now }
{
    matches!(
        event,
        Event::ItsBegin | Event::Put { .. } | Event::Queue { .. }
    )
}

/// The word that was found.
fn word_of(found: &Found) -> u64
    ensures { result ≡ word_in (Some found.now) }
{
    match *found {
        Found::Word { value } => value,
        _ => 0,
    }
}

/// What a call has read at a place for the command that it is at; 0 where it has not.
fn word_fetched(vcpu: Option<u32>, place: Place, piece: &[Made]) -> u64
    ensures { result ≡ word_fetched_at vcpu place piece.now }
{
    let mut is_open = false;
    let mut word = 0;
    for made in piece {
        if leads_on(&made.event) {
            is_open = true;
            word = 0;
        } else if !is_beside(vcpu, &made.event) {
            is_open = false;
        } else if is_open && reads(place, &made.event) {
            word = word_of(&made.found);
        }
    }
    word
}

/// Whether a call has read a place since the last event of its own that is named.
pub(crate) fn has_read(vcpu: Option<u32>, place: Place, piece: &[Made]) -> bool
    ensures { result ≡ has_read_at vcpu place piece.now }
{
    let mut has = false;
    for made in piece {
        has = is_beside(vcpu, &made.event) && (has || reads(place, &made.event));
    }
    has
}

/// A doubleword of the command that a call is at, by its number from 0: 0 outside of memory.
fn doubleword(state: &State, vcpu: Option<u32>, piece: &[Made], number: u32) -> u64
    requires ready { IsReady state.now }
    requires number { number < 4 }
    ensures { result ≡ memory_at state.now.guest.shape (as_fetched state.now vcpu piece.now) (word_address (as_fetched state.now vcpu piece.now) number) 8 }
{
    let queue = queue_address(state.word(PlainWord::Cbaser));
    let offset = state.guest().offset;
    let address = queue + u64::from(offset) + u64::from(DOUBLEWORD_BYTES * number);
    match split(address, DOUBLEWORD_BYTES, state.shape().ram) {
        Some(part) => {
            let word = PlainWord::Ram { index: part.index };
            extract(word_fetched(vcpu, Place::Word { word }, piece), &part)
        }
        None => 0,
    }
}

/// The four doublewords of the command that a call is at.
fn command_words(state: &State, vcpu: Option<u32>, piece: &[Made]) -> [u64; 4]
    requires ready { IsReady state.now }
    ensures { result ≡ command_words_of state.now.guest.shape (as_fetched state.now vcpu piece.now) }
{
    [
        doubleword(state, vcpu, piece, 0),
        doubleword(state, vcpu, piece, 1),
        doubleword(state, vcpu, piece, 2),
        doubleword(state, vcpu, piece, 3),
    ]
}

/// How the command ends that a call has read.
fn command_end(state: &State, vcpu: Option<u32>, piece: &[Made]) -> QueueChange
    requires ready { IsReady state.now }
    ensures { result ≡ command_end_of state.now.guest.shape (as_fetched state.now vcpu piece.now) }
{
    let words = command_words(state, vcpu, piece);
    match state.guest().tables.fault_number(words, state.shape()) {
        Some(fault) => QueueChange::Stalls { fault },
        None => QueueChange::Done { words },
    }
}

/// Whether the call of an operation takes commands, if there is one.
fn does_commands(state: &State, operation: Option<Operation>) -> bool
    ensures { result ≡ option_map_or (takes_commands_of state.now.guest.shape) operation false }
{
    match operation {
        Some(operation) => takes_commands(state.shape(), &operation),
        None => false,
    }
}

/// The change of the queue that a call is at, which is for an operation, if there is one, and made this.
pub(crate) fn change_at(
    state: &State,
    vcpu: Option<u32>,
    operation: Option<Operation>,
    piece: &[Made],
) -> QueueChange
    requires ready { IsReady state.now }
    ensures { result ≡ change_at_of state.now vcpu operation piece.now }
{
    if does_commands(state, operation) && !state.guest().is_stalled {
        command_end(state, vcpu, piece)
    } else {
        QueueChange::Runs
    }
}
