//! Of which interrupts an open call may yet make an event.
ghost use Rattle.std.specs.Prelude.{◌≡◌, ℕ, Option, IfOk, IsTrue, length, map, drop, nat_lt, true};
ghost use Rattle.std.specs.List.{list_any, list_all};
ghost use Rattle.legal_steps.specs.Words.{IsShape, Redist, is_same_key, intid_of as intid_of_key};
ghost use Rattle.legal_steps.specs.Calls.{sets_lpis as sets_lpis_of};
ghost use Rattle.legal_steps.specs.LegalLists.GicRmap.Map.{decoded as redist_decoded};
ghost use Rattle.legal_steps.specs.LegalLists.Legal.{keys_of, gives_back, may_make_lpi as may_make_lpi_of, may_make_after, events_in_order};
ghost use Rattle.history_play.specs.HistoryCalls.Exact.{is_good};

use history_play::{
    DeviceOp, Event, Frame, GuestOp, GuestShape, Key, Made, Operation, events_of, is_plain, key_in,
    takes_commands,
};
use std::alloc::{AllocError, Global};

/// How many events of a piece are of an interrupt.
fn key_count(piece: &[Made]) -> usize
    ensures { result ≡ length (keys_of (map (λ happened. happened.event) piece.now)) }
{
    let mut count = 0;
    for made in piece {
        if key_in(&made.event).is_some() {
            count += 1;
        }
    }
    count
}

/// Whether two interrupts are one.
fn is_same(key: Key, other: Key) -> bool
    ensures { result ≡ is_same_key key other }
{
    key == other
}

/// Whether one of these events is of an interrupt, after so many that are of some.
fn is_among(events: &[Event], count: usize, key: Key) -> bool
    ensures { result ≡ list_any (is_same_key key) (drop count (keys_of events.now)) }
{
    let mut before = count;
    for event in events {
        if let Some(other) = key_in(event) {
            if before > 0 {
                before -= 1;
            } else if is_same(key, other) {
                return true;
            }
        }
    }
    false
}

/// Whether a piece has an event of an interrupt.
fn has_key(piece: &[Made]) -> bool
    ensures { result ≡ list_any (λ key. true) (keys_of (map (λ happened. happened.event) piece.now)) }
{
    for made in piece {
        if key_in(&made.event).is_some() {
            return true;
        }
    }
    false
}

/// Whether the interrupts of a piece's events have INTIDs below one.
fn are_below(piece: &[Made], id: u32) -> bool
    ensures { result ≡ list_all (λ key. nat_lt (intid_of_key key) id) (keys_of (map (λ happened. happened.event) piece.now)) }
{
    for made in piece {
        if let Some(key) = key_in(&made.event) {
            if key.intid() >= id {
                return false;
            }
        }
    }
    true
}

/// Whether the ITS is given back in a piece.
fn is_given_back(piece: &[Made]) -> bool
    ensures { result ≡ list_any gives_back (map (λ happened. happened.event) piece.now) }
{
    for made in piece {
        if matches!(made.event, Event::ItsEnd) {
            return true;
        }
    }
    false
}

/// Whether an access of a redistributor sets EnableLPIs.
#[tactic(auto, using(crate::proofs::MayLemmas::not_plain))]
fn sets_lpis(shape: &GuestShape, operation: &Operation) -> bool
    requires good { IsTrue (is_good shape.now operation.now) }
    ensures { (vcpu offset size : ℕ) (write : Option ℕ) → operation.now ≡ Operation.Access (GuestOp.Mem (Redist vcpu) offset size write) → result ≡ sets_lpis_of shape.now (redist_decoded offset size) write }
{
    !is_plain(shape, operation)
}

/// Whether a write that sets EnableLPIs, and made a piece, may yet touch the LPI with an INTID.
#[tactic(auto, using(crate::proofs::MayLemmas::rises))]
fn may_rise(shape: &GuestShape, operation: &Operation, piece: &[Made], id: u32) -> bool
    requires good { IsTrue (is_good shape.now operation.now) }
    ensures { (vcpu offset size : ℕ) (write : Option ℕ) → operation.now ≡ Operation.Access (GuestOp.Mem (Redist vcpu) offset size write) → result ≡ may_make_lpi_of shape.now operation.now (map (λ happened. happened.event) piece.now) id }
{
    let sets = sets_lpis(shape, operation);
    let below = are_below(piece, id);
    sets && below
}

/// Whether a call of an operation that made a piece may yet make an event of the LPI with an INTID.
fn may_make_lpi(shape: &GuestShape, operation: &Operation, piece: &[Made], id: u32) -> bool
    requires good { IsTrue (is_good shape.now operation.now) }
    ensures { result ≡ may_make_lpi_of shape.now operation.now (map (λ happened. happened.event) piece.now) id }
{
    match *operation {
        Operation::Access {
            op: GuestOp::Mem {
                frame: Frame::Redist { .. },
                ..
            },
        } => may_rise(shape, operation, piece, id),
        Operation::Access {
            op: GuestOp::Mem { .. },
        } => { takes_commands(shape, operation) && !is_given_back(piece) }
        Operation::Device {
            op: DeviceOp::Msi { .. },
        } => !has_key(piece) && !is_given_back(piece),
        _ => false,
    }
}

/// Whether a call of an operation that made a piece may yet make an event of an interrupt, of those whose events come in a fixed order.
#[tactic(auto, using(crate::proofs::MayLemmas::plain_keys, crate::proofs::MayLemmas::none_next))]
fn may_make_next(
    alloc: Global,
    shape: &GuestShape,
    actor: u32,
    operation: &Operation,
    piece: &[Made],
    key: Key,
) -> Result<bool, AllocError>
    requires shape { IsShape shape.now }
    requires good { IsTrue (is_good shape.now operation.now) }
    ensures { IfOk result (λ may. may ≡ list_any (is_same_key key) (drop (length (keys_of (map (λ happened. happened.event) piece.now))) (keys_of (events_in_order shape.now actor operation.now)))) }
{
    if !is_plain(shape, operation) {
        return Ok(false);
    }
    let events = events_of(alloc, shape, actor, &[], true, operation)?;
    Ok(is_among(events.as_slice(), key_count(piece), key))
}

/// Whether an actor's open call of an operation, which made a piece, may yet make an event of an interrupt, whatever memory holds.
/// `AllocError` where memory is refused.
pub fn may_make(
    alloc: Global,
    shape: &GuestShape,
    actor: u32,
    operation: &Operation,
    piece: &[Made],
    key: Key,
) -> Result<bool, AllocError>
    requires shape { IsShape shape.now }
    requires good { IsTrue (is_good shape.now operation.now) }
    ensures { IfOk result (λ may. may ≡ may_make_after shape.now actor operation.now (map (λ happened. happened.event) piece.now) key) }
{
    if may_make_next(alloc, shape, actor, operation, piece, key)? {
        return Ok(true);
    }
    match key {
        Key::Lpi(id) => Ok(may_make_lpi(shape, operation, piece, id)),
        _ => Ok(false),
    }
}
