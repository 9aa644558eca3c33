//! Writes that set EnableLPIs.
ghost use Rattle.std.specs.Prelude.{◌≡◌, ◌↔◌, ◌≤◌, ◌<◌, ◌+◌, ◌&&◌, ℕ, Bool, All, IsTrue, IfOk, Some};
ghost use Rattle.std.specs.List.{flat_map, list_all, range_with_len};
ghost use Rattle.history_turns.specs.Words.{IsShape};
ghost use Rattle.history_turns.specs.Calls.{is_in_table as is_in_table_of, lpis_of, memory_places, pended_events};
ghost use Rattle.history_turns.specs.Registers.{pending_address as place_in_table};
ghost use Rattle.history_turns.specs.HistoryCalls.Exact.{is_told};
ghost use Rattle.history_turns.specs.HistoryCalls.Found.{found_by, touches as touches_key};
ghost use Rattle.history_turns.specs.Risen.{is_touched as is_touched_in, rising_by, rising_places, stays as stays_by, is_settled as is_settled_of, are_settled as are_settled_of, IsReadSo, IsMadeOf, IsRisen, Rises, stored_in as stored_of, place_after as place_of, touched_events as touched_events_of, may_be_touched as may_be_touched_of, IsRising, MayRise};

use crate::noted::{Noted, seen_at};
use history_commands::{
    Event, FIRST_LPI, Found, GuestShape, Key, Kind, ListOf, Made, Place, PlainWord, Touching,
    count_made, from_named, has_bit, is_idle, memory, pending_address, split, was_read, word_at,
};
use std::alloc::{AllocError, Global};

/// PTZ, in what GICR_PENDBASER stores.
const PTZ: u32 = 62;
/// A write of 1 to an interrupt's part of ISPENDR.
const PEND: Touching = Touching::Register {
    kind: Kind::SetPending,
    value: 1,
};
/// The bits of a byte.
const BYTE_BITS: u64 = 8;

/// Whether an event touches an LPI.
fn touches(made: &Made, id: u32) -> bool
    ensures { result ≡ touches_key (Key.Lpi id) made.now.event }
{
    match made.event {
        Event::Touch { key, .. } => key == Key::Lpi(id),
        _ => false,
    }
}

/// Whether an LPI is touched.
fn is_touched(piece: &[Made], id: u32) -> bool
    ensures { result ≡ is_touched_in piece.now id }
{
    piece.iter().any(|made| touches(made, id))
}

/// Whether an LPI's bit of the pending table is 1, where this is its address register.
fn is_in_table(shape: &GuestShape, piece: &[Made], pendbaser: u64, id: u32) -> bool
    requires shape { IsShape shape.now }
    requires first { 8192 ≤ id }
    requires last { id ≤ 65535 }
    ensures { (is_on : Bool) (vcpu : ℕ) → pendbaser ≡ (found_by piece.now).words (PlainWord.Pendbaser vcpu) → result ≡ is_in_table_of shape.now (rising_by is_on vcpu piece.now) vcpu id }
{
    let (address, bit) = pending_address(pendbaser, id);
    has_bit(memory(shape, piece, address, 1), bit)
}

/// Whether the word of memory with an LPI's bit of the pending table was read, if it is the guest's.
fn is_bit_read(shape: &GuestShape, piece: &[Made], pendbaser: u64, id: u32) -> bool
    requires shape { IsShape shape.now }
    requires first { 8192 ≤ id }
    requires last { id ≤ 65535 }
    ensures { (is_on : Bool) (vcpu : ℕ) → IsTrue result ↔ All (IsReadSo (rising_by is_on vcpu piece.now) piece.now) (memory_places shape.now (place_in_table pendbaser id).0 1) }
{
    let (address, _) = pending_address(pendbaser, id);
    match split(address, 1, shape.ram) {
        Some(part) => {
            let word = PlainWord::Ram { index: part.index };
            was_read(piece, Place::Word { word })
        }
        None => true,
    }
}

/// Whether the words with the bits of all LPIs were read.
fn are_bits_read(shape: &GuestShape, piece: &[Made], pendbaser: u64) -> bool
    requires { IsShape shape.now }
    ensures { (is_on : Bool) (vcpu : ℕ) → IsTrue result ↔ All (IsReadSo (rising_by is_on vcpu piece.now) piece.now) (flat_map (λ id. memory_places shape.now (place_in_table pendbaser id).0 1) (lpis_of shape.now)) }
{
    for number in 0..shape.lpis {
        if !is_bit_read(shape, piece, pendbaser, FIRST_LPI + number) {
            return false;
        }
    }
    true
}

/// Whether all was read that such a write goes by after it stored EnableLPIs.
fn are_read(shape: &GuestShape, is_on: bool, vcpu: u32, piece: &[Made]) -> bool
    requires { IsShape shape.now }
    ensures { IsTrue result ↔ All (IsReadSo (rising_by is_on vcpu piece.now) piece.now) (rising_places shape.now is_on vcpu piece.now) }
{
    if is_on {
        return true;
    }
    let word = PlainWord::Pendbaser { vcpu };
    if !was_read(piece, Place::Word { word }) {
        return false;
    }
    let pendbaser = word_at(piece, word);
    has_bit(pendbaser, PTZ) || are_bits_read(shape, piece, pendbaser)
}

/// Whether nothing rises: EnableLPIs was 1 before, or the pending table has only zeros.
fn stays(is_on: bool, vcpu: u32, piece: &[Made]) -> bool
    ensures { result ≡ stays_by is_on vcpu piece.now }
{
    is_on || has_bit(word_at(piece, PlainWord::Pendbaser { vcpu }), PTZ)
}

/// Whether the LPI of a number was for vCPUs as what was made asks for.
fn is_settled(shape: &GuestShape, vcpu: u32, noted: &Noted, piece: &[Made], number: u32) -> bool
    requires shape { IsShape shape.now }
    requires there { number < shape.now.lpis }
    ensures { (is_on : Bool) → result ≡ is_settled_of shape.now is_on vcpu noted.now piece.now number }
{
    let id = FIRST_LPI + number;
    let seen = seen_at(noted, number);
    if is_touched(piece, id) {
        return seen.is_own;
    }
    let pendbaser = word_at(piece, PlainWord::Pendbaser { vcpu });
    !is_in_table(shape, piece, pendbaser, id) || seen.is_other
}

/// Whether all LPIs were.
fn are_settled(shape: &GuestShape, is_on: bool, vcpu: u32, noted: &Noted, piece: &[Made]) -> bool
    requires { IsShape shape.now }
    ensures { result ≡ are_settled_of shape.now is_on vcpu noted.now piece.now }
{
    if stays(is_on, vcpu, piece) {
        return true;
    }
    for number in 0..shape.lpis {
        if !is_settled(shape, vcpu, noted, piece, number) {
            return false;
        }
    }
    true
}

/// Whether the LPI of a number is touched and has its bit in the pending table.
fn is_pended(shape: &GuestShape, vcpu: u32, piece: &[Made], number: u32) -> bool
    requires shape { IsShape shape.now }
    requires there { number < shape.now.lpis }
    ensures { (is_on : Bool) → result ≡ (is_touched_in piece.now (8192 + number) && is_in_table_of shape.now (rising_by is_on vcpu piece.now) vcpu (8192 + number)) }
{
    let id = FIRST_LPI + number;
    let pendbaser = word_at(piece, PlainWord::Pendbaser { vcpu });
    is_touched(piece, id) && is_in_table(shape, piece, pendbaser, id)
}

/// The events that follow once EnableLPIs is stored: of the LPIs that are touched those that have their bit in the pending
/// table, in rising order.
fn rising_events(
    alloc: Global,
    shape: &GuestShape,
    is_on: bool,
    vcpu: u32,
    piece: &[Made],
) -> Result<ListOf<Event>, AllocError>
    requires { IsShape shape.now }
    ensures { IfOk result (λ events. events ≡ pended_events shape.now (rising_by is_on vcpu piece.now) vcpu) }
{
    let mut events = ListOf::new(alloc);
    if stays(is_on, vcpu, piece) {
        return Ok(events);
    }
    for number in 0..shape.lpis {
        if is_pended(shape, vcpu, piece, number) {
            events.push(Event::Touch {
                key: Key::Lpi(FIRST_LPI + number),
                touching: PEND,
            })?;
        }
    }
    Ok(events)
}

/// Whether the named events of a piece are as many as these.
fn are_these(actor: u32, piece: &[Made], events: &[Event]) -> bool
    requires { IsTrue (list_all is_told events.now) }
    ensures { IsTrue result ↔ IsMadeOf (Some actor) (found_by piece.now) events.now piece.now }
{
    match count_made(Some(actor), piece, false, events) {
        Some(count) => count == events.len(),
        None => false,
    }
}

/// Whether this is what follows once EnableLPIs is stored, which was 1 before or not.
fn is_risen(
    alloc: Global,
    shape: &GuestShape,
    actor: u32,
    vcpu: u32,
    noted: &Noted,
    is_on: bool,
    piece: &[Made],
) -> Result<bool, AllocError>
    requires { IsShape shape.now }
    ensures { IfOk result (λ risen. IsTrue risen ↔ IsRisen shape.now actor vcpu noted.now is_on piece.now) }
{
    let events = rising_events(alloc, shape, is_on, vcpu, piece)?;
    if !are_these(actor, piece, events.as_slice()) || !are_read(shape, is_on, vcpu, piece) {
        return Ok(false);
    }
    Ok(are_settled(shape, is_on, vcpu, noted, piece))
}

/// Whether EnableLPIs of a vCPU is stored: whether it was 1 before.
fn stored_in(vcpu: u32, made: &Made) -> Option<bool>
    ensures { result ≡ stored_of vcpu made.now.event made.now.found }
{
    match (made.event, made.found) {
        (Event::Enable { vcpu: other }, Found::Lpis { is_on }) if other == vcpu => Some(is_on),
        _ => None,
    }
}

/// Whether what an actor made is a write that sets EnableLPIs of a vCPU. `AllocError` where memory is refused.
pub(crate) fn rises(
    alloc: Global,
    shape: &GuestShape,
    actor: u32,
    vcpu: u32,
    noted: &Noted,
    piece: &[Made],
) -> Result<bool, AllocError>
    requires { IsShape shape.now }
    ensures { IfOk result (λ risen. IsTrue risen ↔ Rises shape.now actor vcpu noted.now piece.now) }
{
    let from = from_named(Some(actor), piece);
    if from.is_empty() {
        return Ok(false);
    }
    let Some(is_on) = stored_in(vcpu, &from[0]) else {
        return Ok(false);
    };
    let rest = &from[1..];
    is_risen(alloc, shape, actor, vcpu, noted, is_on, rest)
}

/// The LPI of the pending table to which events come.
fn place_after(piece: &[Made]) -> u32
    ensures { result ≡ place_of piece.now }
{
    let mut here = 0;
    for made in piece {
        match made.event {
            Event::Enable { .. } => here = 0,
            Event::Touch {
                key: Key::Lpi(id),
                ..
            } => here = id,
            _ => {}
        }
    }
    here
}

/// Whether the LPI of a number may have been touched, where it was.
fn may_be_touched(shape: &GuestShape, noted: &Noted, piece: &[Made], number: u32) -> bool
    requires shape { IsShape shape.now }
    requires there { number < shape.now.lpis }
    ensures { result ≡ may_be_touched_of shape.now noted.now piece.now number }
{
    let id = FIRST_LPI + number;
    if !is_touched(piece, id) {
        return true;
    }
    u64::from(id) < BYTE_BITS * u64::from(shape.ram)
        && (seen_at(noted, number).is_own || id >= place_after(piece))
}

/// Whether all LPIs may.
fn may_all_be_touched(shape: &GuestShape, noted: &Noted, piece: &[Made]) -> bool
    requires { IsShape shape.now }
    ensures { result ≡ list_all (may_be_touched_of shape.now noted.now piece.now) (range_with_len 0 shape.now.lpis) }
{
    for number in 0..shape.lpis {
        if !may_be_touched(shape, noted, piece, number) {
            return false;
        }
    }
    true
}

/// The touches of the LPIs that are touched, in rising order.
fn touched_events(
    alloc: Global,
    shape: &GuestShape,
    piece: &[Made],
) -> Result<ListOf<Event>, AllocError>
    requires { IsShape shape.now }
    ensures { IfOk result (λ events. events ≡ touched_events_of shape.now piece.now) }
{
    let mut events = ListOf::new(alloc);
    for number in 0..shape.lpis {
        if is_touched(piece, FIRST_LPI + number) {
            events.push(Event::Touch {
                key: Key::Lpi(FIRST_LPI + number),
                touching: PEND,
            })?;
        }
    }
    Ok(events)
}

/// Whether this may follow once EnableLPIs is stored, which was 0 before.
fn is_rising(
    alloc: Global,
    shape: &GuestShape,
    actor: u32,
    noted: &Noted,
    piece: &[Made],
) -> Result<bool, AllocError>
    requires { IsShape shape.now }
    ensures { IfOk result (λ rising. IsTrue rising ↔ IsRising shape.now actor noted.now piece.now) }
{
    let events = touched_events(alloc, shape, piece)?;
    if !are_these(actor, piece, events.as_slice()) {
        return Ok(false);
    }
    Ok(may_all_be_touched(shape, noted, piece))
}

/// Whether what an actor made can still become a write that sets EnableLPIs of a vCPU. `AllocError` where memory is refused.
pub(crate) fn may_rise(
    alloc: Global,
    shape: &GuestShape,
    actor: u32,
    vcpu: u32,
    noted: &Noted,
    piece: &[Made],
) -> Result<bool, AllocError>
    requires { IsShape shape.now }
    ensures { IfOk result (λ rising. IsTrue rising ↔ MayRise shape.now actor vcpu noted.now piece.now) }
{
    let from = from_named(Some(actor), piece);
    if from.is_empty() {
        return Ok(true);
    }
    let Some(is_on) = stored_in(vcpu, &from[0]) else {
        return Ok(false);
    };
    let rest = &from[1..];
    if is_on {
        return Ok(is_idle(Some(actor), rest));
    }
    is_rising(alloc, shape, actor, noted, rest)
}
