//! Writes of the registers of the ITS: which events one has, what it reads, and which commands it starts, as a piece found the ITS.
ghost use Rattle.std.specs.Prelude.{◌≡◌, ◌↔◌, ◌<◌, ℕ, [], ◌∷◌, All, IsTrue, IfOk, None, Some, if◌then◌else◌};
ghost use Rattle.history_commands.specs.Words.{GuestShape as GuestShapeOf, bit_of};
ghost use Rattle.history_commands.specs.Registers.{half_limit, Half, enabled_in, Cbaser as CbaserReg, Cwriter as CwriterReg};
ghost use Rattle.history_commands.specs.Calls.{Put, ItsCtlr, FitsIts, IsLastRead, held_at, baser_written, is_its_enabled, its_written as its_written_by, its_events as its_events_of, its_places as its_places_of, its_write_places, its_starts, its_written_by as left_by_events};
ghost use Rattle.history_commands.specs.GicCall.declared.event.Place.TheVariants.{Queue as QueuePlace};
ghost use Rattle.history_commands.specs.GicImap.declared.map.Reg.TheVariants.{Ctlr as ItsCtlrReg};
ghost use Rattle.history_commands.specs.GicCall.Access.{starts_commands as register_starts};
ghost use Rattle.history_commands.specs.HistoryCalls.Found.{found_by, last_found, reads as reads_place};
ghost use Rattle.history_commands.specs.Known.{its_in};

use crate::its::Its;
use history_calls::{
    Event, Found, GuestShape, Half, ItsReg, ItsRegRef as ItsRef, ListOf, Made, Place, PlainWord,
    QueueChange, baser_after, cbaser_after, has_bit, offset_in, queue_bytes, reads, retries,
    was_read, word_at,
};
use std::alloc::{AllocError, Global};

/// Enabled, in what GITS_CTLR stores and in what is written to it.
pub(crate) const ENABLED: u32 = 0;

/// What the last read of the queue found.
fn queue_read(piece: &[Made]) -> Option<Found>
    ensures { result ≡ last_found (reads_place QueuePlace) piece.now }
{
    let mut last = None;
    for made in piece {
        if reads(Place::Queue, &made.event) {
            last = Some(made.found);
        }
    }
    last
}

/// The registers of the ITS and its queue, as a piece found them.
fn its_at(piece: &[Made]) -> Its
    ensures { result ≡ its_in (found_by piece.now) }
{
    let (offset, is_stalled) = match queue_read(piece) {
        Some(Found::Queue { offset, is_stalled }) => (offset, is_stalled),
        _ => (0, false),
    };
    Its {
        ctlr: word_at(piece, PlainWord::ItsCtlr),
        cbaser: word_at(piece, PlainWord::Cbaser),
        cwriter: word_at(piece, PlainWord::Cwriter),
        offset,
        is_stalled,
    }
}

/// Whether the ITS is enabled, as a piece found it.
fn is_enabled(piece: &[Made]) -> bool
    ensures { result ≡ is_its_enabled (found_by piece.now) }
{
    has_bit(word_at(piece, PlainWord::ItsCtlr), ENABLED)
}

/// The events of a write of GITS_CTLR.
fn ctlr_events(alloc: Global, value: u64) -> Result<ListOf<Event>, AllocError>
    ensures { IfOk result (λ events. events ≡ Put ItsCtlr (bit_of (enabled_in value)) ∷ []) }
{
    let mut events = ListOf::new(alloc);
    events.push(Event::Put {
        word: PlainWord::ItsCtlr,
        value: u64::from(has_bit(value, ENABLED)),
    })?;
    Ok(events)
}

/// The events of a write of GITS_CBASER.
fn cbaser_events(
    alloc: Global,
    piece: &[Made],
    half: Half,
    value: u64,
) -> Result<ListOf<Event>, AllocError>
    requires { value < half_limit half }
    ensures { IfOk result (λ events. events ≡ its_written_by (found_by piece.now) CbaserReg half value) }
{
    let mut events = ListOf::new(alloc);
    if is_enabled(piece) {
        return Ok(events);
    }
    let word = PlainWord::Cbaser;
    let stored = word_at(piece, word);
    let value = cbaser_after(false, stored, half.written(stored, value));
    events.push(Event::Put {
        word: PlainWord::Cwriter,
        value: 0,
    })?;
    events.push(Event::Queue {
        offset: 0,
        change: QueueChange::Runs,
    })?;
    events.push(Event::Put { word, value })?;
    Ok(events)
}

/// The events of a write of GITS_CWRITER.
fn cwriter_events(
    alloc: Global,
    piece: &[Made],
    half: Half,
    value: u64,
) -> Result<ListOf<Event>, AllocError>
    requires { value < half_limit half }
    ensures { IfOk result (λ events. events ≡ its_written_by (found_by piece.now) CwriterReg half value) }
{
    let its = its_at(piece);
    let written = half.written(its.cwriter, value);
    let mut events = ListOf::new(alloc);
    if offset_in(written) >= u64::from(queue_bytes(its.cbaser)) {
        return Ok(events);
    }
    events.push(Event::Put {
        word: PlainWord::Cwriter,
        value: offset_in(written),
    })?;
    if its.is_stalled && retries(its.cbaser, written) {
        events.push(Event::Queue {
            offset: its.offset,
            change: QueueChange::Runs,
        })?;
    }
    Ok(events)
}

/// The events of a write of GITS_BASER0 or GITS_BASER1, in its plain word.
fn baser_events(
    alloc: Global,
    piece: &[Made],
    word: PlainWord,
    half: Half,
    value: u64,
) -> Result<ListOf<Event>, AllocError>
    requires { value < half_limit half }
    ensures { IfOk result (λ events. events ≡ baser_written (found_by piece.now) word half value) }
{
    let mut events = ListOf::new(alloc);
    if is_enabled(piece) {
        return Ok(events);
    }
    let stored = word_at(piece, word);
    let value = baser_after(false, stored, half.written(stored, value));
    events.push(Event::Put { word, value })?;
    Ok(events)
}

/// The events of a write of the ITS, before any command.
pub(crate) fn its_events(
    alloc: Global,
    shape: &GuestShape,
    piece: &[Made],
    reference: ItsRef,
    value: u64,
) -> Result<ListOf<Event>, AllocError>
    requires { FitsIts reference (Some value) }
    ensures { IfOk result (λ events. events ≡ its_events_of shape.now (found_by piece.now) reference (Some value)) }
{
    let ItsRef::Plain { reg, half } = reference else {
        return Ok(ListOf::new(alloc));
    };
    if shape.lpis == 0 {
        return Ok(ListOf::new(alloc));
    }
    match reg {
        ItsReg::Ctlr => ctlr_events(alloc, value),
        ItsReg::Cbaser => cbaser_events(alloc, piece, half, value),
        ItsReg::Cwriter => cwriter_events(alloc, piece, half, value),
        ItsReg::Baser0 => baser_events(alloc, piece, PlainWord::Baser0, half, value),
        ItsReg::Baser1 => baser_events(alloc, piece, PlainWord::Baser1, half, value),
        ItsReg::Iidr | ItsReg::Typer | ItsReg::Creadr | ItsReg::Pidr2 => Ok(ListOf::new(alloc)),
    }
}

/// Whether a place was read, the last time as it is found.
fn is_read(piece: &[Made], place: Place) -> bool
    ensures { IsTrue result ↔ IsLastRead place (held_at (found_by piece.now) place) piece.now }
{
    was_read(piece, place)
}

/// Whether these places were.
fn are_all_read(piece: &[Made], places: &[Place]) -> bool
    ensures { IsTrue result ↔ All (λ place. IsLastRead place (held_at (found_by piece.now) place) piece.now) places.now }
{
    for index in 0..places.len() {
        if !is_read(piece, places[index]) {
            return false;
        }
    }
    true
}

/// Whether the places that a write of a register reads were.
fn are_read_of(piece: &[Made], reg: ItsReg) -> bool
    ensures { IsTrue result ↔ All (λ place. IsLastRead place (held_at (found_by piece.now) place) piece.now) (its_write_places reg) }
{
    let ctlr = Place::Word {
        word: PlainWord::ItsCtlr,
    };
    let cbaser = Place::Word {
        word: PlainWord::Cbaser,
    };
    let cwriter = Place::Word {
        word: PlainWord::Cwriter,
    };
    match reg {
        ItsReg::Ctlr => are_all_read(piece, &[cbaser, cwriter, Place::Queue]),
        ItsReg::Cwriter => are_all_read(piece, &[ctlr, cbaser, Place::Queue, cwriter]),
        ItsReg::Cbaser | ItsReg::Baser0 | ItsReg::Baser1 => are_all_read(piece, &[ctlr]),
        ItsReg::Iidr | ItsReg::Typer | ItsReg::Creadr | ItsReg::Pidr2 => true,
    }
}

/// Whether those of a write of the ITS were.
pub(crate) fn are_read(shape: &GuestShape, piece: &[Made], reference: ItsRef) -> bool
    ensures { (value : ℕ) → IsTrue result ↔ All (λ place. IsLastRead place (held_at (found_by piece.now) place) piece.now) (its_places_of shape.now reference (Some value)) }
{
    match reference {
        ItsRef::Plain { reg, .. } if shape.lpis != 0 => are_read_of(piece, reg),
        _ => true,
    }
}

/// The ITS after a write of GITS_CTLR.
fn ctlr_start(piece: &[Made], value: u64) -> Its
    ensures { (shape : GuestShapeOf) (half : Half) → result ≡ its_in (left_by_events shape (found_by piece.now) (its_written_by (found_by piece.now) ItsCtlrReg half value)) }
{
    Its {
        ctlr: u64::from(has_bit(value, ENABLED)),
        ..its_at(piece)
    }
}

/// The ITS after a write of GITS_CWRITER, if that is not ignored.
fn cwriter_start(piece: &[Made], half: Half, value: u64) -> Option<Its>
    requires { value < half_limit half }
    ensures { (shape : GuestShapeOf) → result ≡ (if register_starts (found_by piece.now) CwriterReg half value then Some (its_in (left_by_events shape (found_by piece.now) (its_written_by (found_by piece.now) CwriterReg half value))) else None) }
{
    let its = its_at(piece);
    let written = half.written(its.cwriter, value);
    if offset_in(written) >= u64::from(queue_bytes(its.cbaser)) {
        return None;
    }
    Some(Its {
        cwriter: offset_in(written),
        is_stalled: its.is_stalled && !retries(its.cbaser, written),
        ..its
    })
}

/// The ITS with which the commands begin that a write of the ITS starts, if it starts any.
pub(crate) fn its_start(
    shape: &GuestShape,
    piece: &[Made],
    reference: ItsRef,
    value: u64,
) -> Option<Its>
    requires { FitsIts reference (Some value) }
    ensures { result ≡ (if its_starts shape.now (found_by piece.now) reference (Some value) then Some (its_in (left_by_events shape.now (found_by piece.now) (its_events_of shape.now (found_by piece.now) reference (Some value)))) else None) }
{
    let ItsRef::Plain { reg, half } = reference else {
        return None;
    };
    if shape.lpis == 0 {
        return None;
    }
    match reg {
        ItsReg::Ctlr => Some(ctlr_start(piece, value)),
        ItsReg::Cwriter => cwriter_start(piece, half, value),
        ItsReg::Cbaser | ItsReg::Baser0 | ItsReg::Baser1 => None,
        ItsReg::Iidr | ItsReg::Typer | ItsReg::Creadr | ItsReg::Pidr2 => None,
    }
}
