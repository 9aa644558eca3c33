//! Message-signalled interrupts.
ghost use Rattle.std.specs.Prelude.{◌≡◌, None};
ghost use Rattle.std.specs.List.{list_any};
ghost use Rattle.history_turns.specs.Words.{is_number};
ghost use Rattle.history_turns.specs.Calls.{PlainWord as Plain};
ghost use Rattle.history_turns.specs.GicCall.declared.event.Place.TheVariants.{Word};
ghost use Rattle.history_turns.specs.HistoryCalls.Found.{last_found, reads as reads_place};
ghost use Rattle.history_turns.specs.Signalled.{is_taken as is_taken_in, is_given_back as is_given_back_in, raised_in as raised_of, enabled_by as enabled_of, is_enabled_by, finds_enabled as finds_enabled_in, finds_none as finds_none_in, after_raise as after_raise_of, after_take as after_take_of, is_signalled as is_signalled_by};
ghost use Rattle.history_turns.specs.Walked.{from_named as from_named_of};

use history_commands::{
    Event, Found, Key, Made, Place, PlainWord, before_named, from_named, has_bit, is_idle,
};

/// Enabled, in what GITS_CTLR stores.
const ENABLED: u32 = 0;

/// Whether an event takes the ITS.
fn is_taken(made: &Made) -> bool
    ensures { result ≡ is_taken_in made.now.event made.now.found }
{
    match (made.event, made.found) {
        (Event::ItsBegin, Found::Nothing) => true,
        _ => false,
    }
}

/// Whether it gives the ITS back.
fn is_given_back(made: &Made) -> bool
    ensures { result ≡ is_given_back_in made.now.event made.now.found }
{
    match (made.event, made.found) {
        (Event::ItsEnd, Found::Nothing) => true,
        _ => false,
    }
}

/// The LPI that it raises, if it does.
fn raised_in(made: &Made) -> Option<u32>
    ensures { result ≡ raised_of made.now.event made.now.found }
{
    match (made.event, made.found) {
        (Event::Raise { key: Key::Lpi(id) }, Found::Nothing) => Some(id),
        _ => None,
    }
}

/// Whether it reads GITS_CTLR.
fn reads_ctlr(made: &Made) -> bool
    ensures { result ≡ reads_place (Word Plain.ItsCtlr) made.now.event }
{
    match made.event {
        Event::Read {
            place: Place::Word {
                word: PlainWord::ItsCtlr,
            },
        } => true,
        _ => false,
    }
}

/// Whether a read of GITS_CTLR that found this found the ITS enabled.
fn enabled_by(found: Found) -> Option<bool>
    ensures { result ≡ enabled_of found }
{
    match found {
        Found::Word { value } => Some(has_bit(value, ENABLED)),
        _ => None,
    }
}

/// Whether an event reads GITS_CTLR and finds the ITS enabled.
fn finds_enabled(made: &Made) -> bool
    ensures { result ≡ finds_enabled_in made.now }
{
    reads_ctlr(made) && enabled_by(made.found) == Some(true)
}

/// Whether an event reads GITS_CTLR, and nothing is raised after that, where this is the LPI that is signalled while the ITS
/// is enabled.
fn finds_none(lpi: Option<u32>, made: &Made) -> bool
    ensures { result ≡ finds_none_in lpi made.now }
{
    if !reads_ctlr(made) {
        return false;
    }
    match enabled_by(made.found) {
        Some(enabled) => !enabled || lpi.is_none(),
        None => false,
    }
}

/// Whether the last read of GITS_CTLR found the ITS enabled.
fn was_enabled(piece: &[Made]) -> bool
    ensures { result ≡ is_enabled_by (last_found (reads_place (Word Plain.ItsCtlr)) piece.now) }
{
    let mut enabled = false;
    for made in piece {
        if reads_ctlr(made) {
            enabled = finds_enabled(made);
        }
    }
    enabled
}

/// Whether an LPI is the one that is signalled.
fn is_lpi(id: u32, lpi: Option<u32>) -> bool
    ensures { result ≡ is_number id lpi }
{
    match lpi {
        Some(other) => other == id,
        None => false,
    }
}

/// Whether any read of GITS_CTLR found the ITS enabled.
fn any_enabled(piece: &[Made]) -> bool
    ensures { result ≡ list_any finds_enabled_in piece.now }
{
    piece.iter().any(|made| finds_enabled(made))
}

/// Whether after any read of GITS_CTLR nothing is raised.
fn any_none(lpi: Option<u32>, piece: &[Made]) -> bool
    ensures { result ≡ list_any (finds_none_in lpi) piece.now }
{
    piece.iter().any(|made| finds_none(lpi, made))
}

/// Whether this follows once the LPI is raised.
fn after_raise(is_open: bool, enabled: bool, piece: &[Made]) -> bool
    ensures { result ≡ after_raise_of is_open enabled piece.now (from_named_of None piece.now) }
{
    let from = from_named(None, piece);
    if from.is_empty() {
        return is_open;
    }
    is_given_back(&from[0])
        && is_idle(None, &from[1..])
        && (enabled || any_enabled(before_named(None, piece)))
}

/// Whether this follows once the ITS is taken.
fn after_take(is_open: bool, lpi: Option<u32>, piece: &[Made]) -> bool
    ensures { result ≡ after_take_of is_open lpi piece.now (from_named_of None piece.now) }
{
    let from = from_named(None, piece);
    if from.is_empty() {
        return is_open;
    }
    let early = before_named(None, piece);
    if is_given_back(&from[0]) {
        return is_idle(None, &from[1..]) && any_none(lpi, early);
    }
    match raised_in(&from[0]) {
        Some(id) => is_lpi(id, lpi) && after_raise(is_open, was_enabled(early), &from[1..]),
        None => false,
    }
}

/// Whether what a device made is a message-signalled interrupt, or of an open call, whether it can still become one: it has
/// raised what it signals or not, and signals this LPI while the ITS is enabled.
pub(crate) fn is_signalled(is_open: bool, signals: bool, lpi: Option<u32>, piece: &[Made]) -> bool
    ensures { result ≡ is_signalled_by is_open signals lpi piece.now }
{
    let from = from_named(None, piece);
    if from.is_empty() {
        return is_open;
    }
    if is_taken(&from[0]) {
        return after_take(is_open, lpi, &from[1..]);
    }
    raised_in(&from[0]).is_some() && signals && is_idle(None, &from[1..])
}
