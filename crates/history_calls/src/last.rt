//! What the events of a call found of the guest.
ghost use Rattle.std.specs.Prelude.{◌≡◌};
ghost use Rattle.history_calls.specs.Found.{is_same_word as is_same_word_as, is_same_place as is_same_place_as, touches as touches_key, stores as stores_word, reads as reads_place, last_found, found_by, seen_by};

use crate::made::Made;
use floor_calls::{Enables, Event, Found, Irq, Key, Place, PlainWord, opening_irq};

/// Whether an event touches an interrupt.
fn touches(key: Key, event: &Event) -> bool
    ensures { result ≡ touches_key key event.now }
{
    match *event {
        Event::Touch { key: other, .. } => other == key,
        _ => false,
    }
}

/// Whether two plain words are one.
fn is_same_word(word: PlainWord, other: PlainWord) -> bool
    ensures { result ≡ is_same_word_as word other }
{
    match (word, other) {
        (PlainWord::Ram { index: a }, PlainWord::Ram { index: b }) => a == b,
        (PlainWord::Propbaser { vcpu: a }, PlainWord::Propbaser { vcpu: b })
        | (PlainWord::Pendbaser { vcpu: a }, PlainWord::Pendbaser { vcpu: b }) => a == b,
        (PlainWord::ItsCtlr, PlainWord::ItsCtlr)
        | (PlainWord::Cbaser, PlainWord::Cbaser)
        | (PlainWord::Cwriter, PlainWord::Cwriter)
        | (PlainWord::Baser0, PlainWord::Baser0)
        | (PlainWord::Baser1, PlainWord::Baser1)
        | (PlainWord::Fault, PlainWord::Fault) => true,
        _ => false,
    }
}

/// Whether two places are one.
fn is_same_place(place: Place, other: Place) -> bool
    ensures { result ≡ is_same_place_as place other }
{
    match (place, other) {
        (Place::Word { word: a }, Place::Word { word: b }) => is_same_word(a, b),
        (Place::Queue, Place::Queue) | (Place::Ctlr, Place::Ctlr) => true,
        (Place::Lpis { vcpu: a }, Place::Lpis { vcpu: b }) => a == b,
        _ => false,
    }
}

/// Whether an event stores a plain word.
fn stores(word: PlainWord, event: &Event) -> bool
    ensures { result ≡ stores_word word event.now }
{
    match *event {
        Event::Put { word: other, .. } => is_same_word(other, word),
        _ => false,
    }
}

/// Whether an event reads a place.
pub fn reads(place: Place, event: &Event) -> bool
    ensures { result ≡ reads_place place event.now }
{
    match *event {
        Event::Read { place: other } => is_same_place(other, place),
        _ => false,
    }
}

/// What the last touch of an interrupt found.
fn last_touch(piece: &[Made], key: Key) -> Option<Found>
    ensures { result ≡ last_found (touches_key key) piece.now }
{
    let mut last = None;
    for made in piece {
        if touches(key, &made.event) {
            last = Some(made.found);
        }
    }
    last
}

/// What the last store of a plain word found.
fn last_store(piece: &[Made], word: PlainWord) -> Option<Found>
    ensures { result ≡ last_found (stores_word word) piece.now }
{
    let mut last = None;
    for made in piece {
        if stores(word, &made.event) {
            last = Some(made.found);
        }
    }
    last
}

/// What the last read of a place found.
pub(crate) fn last_read(piece: &[Made], place: Place) -> Option<Found>
    ensures { result ≡ last_found (reads_place place) piece.now }
{
    let mut last = None;
    for made in piece {
        if reads(place, &made.event) {
            last = Some(made.found);
        }
    }
    last
}

/// The record of an interrupt that its touch found.
pub(crate) fn irq_at(piece: &[Made], key: Key) -> Irq
    ensures { result ≡ (found_by piece.now).irqs key }
{
    match last_touch(piece, key) {
        Some(Found::Record { irq }) => irq,
        _ => opening_irq(true, key),
    }
}

/// What a plain word held, as its store or the last read found.
pub fn word_at(piece: &[Made], word: PlainWord) -> u64
    ensures { result ≡ (found_by piece.now).words word }
{
    match last_store(piece, word).or(last_read(piece, Place::Word { word })) {
        Some(Found::Word { value }) => value,
        _ => 0,
    }
}

/// EnableLPIs of a vCPU; of a call that is open it counts as 0.
pub(crate) fn lpis_at(piece: &[Made], is_open: bool, vcpu: u32) -> bool
    ensures { result ≡ (seen_by is_open piece.now).lpis vcpu }
{
    match last_read(piece, Place::Lpis { vcpu }) {
        Some(Found::Lpis { is_on }) => !is_open && is_on,
        _ => false,
    }
}

/// The group enables of GICD_CTLR.
pub(crate) fn enables_at(piece: &[Made]) -> Enables
    ensures { result ≡ (found_by piece.now).enables }
{
    match last_read(piece, Place::Ctlr) {
        Some(Found::Ctlr { enables, .. }) => enables,
        _ => Enables {
            group0: false,
            group1: false,
        },
    }
}

/// Whether a write of GICD_CTLR is still copying them.
pub(crate) fn spreads_at(piece: &[Made]) -> bool
    ensures { result ≡ (found_by piece.now).is_spreading }
{
    match last_read(piece, Place::Ctlr) {
        Some(Found::Ctlr { is_spreading, .. }) => is_spreading,
        _ => false,
    }
}

/// The offset of the command queue.
pub(crate) fn offset_at(piece: &[Made]) -> u32
    ensures { result ≡ (found_by piece.now).offset }
{
    match last_read(piece, Place::Queue) {
        Some(Found::Queue { offset, .. }) => offset,
        _ => 0,
    }
}

/// Whether the command queue is stalled.
pub(crate) fn stalled_at(piece: &[Made]) -> bool
    ensures { result ≡ (found_by piece.now).is_stalled }
{
    match last_read(piece, Place::Queue) {
        Some(Found::Queue { is_stalled, .. }) => is_stalled,
        _ => false,
    }
}
