//! The first events of a write of a register of the ITS: whether a piece has them, in some guest.
ghost use Rattle.std.specs.Prelude.{◌≡◌, ◌↔◌, ◌<◌, ℕ, true, IsTrue, [], Some};
ghost use Rattle.history_commands.specs.Words.{Its as ItsFrame, Mem};
ghost use Rattle.history_commands.specs.Registers.{half_limit, half_written, baser_bits, Cwriter as CwriterReg};
ghost use Rattle.history_commands.specs.Calls.{Access, named_of, takes_turn};
ghost use Rattle.history_commands.specs.GicImap.Map.{decoded as its_decoded};
ghost use Rattle.history_commands.specs.HistoryCalls.Exact.{is_good};
ghost use Rattle.history_commands.specs.Opened.{IsWriteBegun};
ghost use Rattle.history_commands.specs.Beginning.{held_in as held_of, IsStored, RunsFrom, MayStore, MayStart, MayRun, MayWrite, MayBegin};

use crate::named::{from_named, is_idle};
use crate::register::ENABLED;
use history_calls::{
    Event, Found, GuestShape, Half, ItsReg, ItsRegRef, Made, PlainWord, QueueChange, baser_after,
    cbaser_after, has_bit, its_access, offset_in,
};

/// Retry, in what is written to GITS_CWRITER.
const RETRY: u32 = 0;

/// What a plain word held, as an event handed it out.
fn held_in(made: &Made) -> u64
    ensures { result ≡ held_of made.now }
{
    match made.found {
        Found::Word { value } => value,
        _ => 0,
    }
}

/// Whether an event stores a value in a plain word.
fn is_stored(word: PlainWord, value: u64, made: &Made) -> bool
    ensures { IsTrue result ↔ IsStored word value made.now }
{
    match (made.event, made.found) {
        (
            Event::Put {
                word: other,
                value: stored,
            },
            Found::Word { .. },
        ) => other == word && stored == value,
        _ => false,
    }
}

/// Whether the queue runs from its start on after an event.
fn starts_anew(made: &Made) -> bool
    ensures { IsTrue result ↔ RunsFrom 0 made.now }
{
    match (made.event, made.found) {
        (
            Event::Queue {
                offset,
                change: QueueChange::Runs,
            },
            Found::Nothing,
        ) => offset == 0,
        _ => false,
    }
}

/// Whether it runs from some offset on.
fn runs(made: &Made) -> bool
    ensures { IsTrue result ↔ ((offset : ℕ) × RunsFrom offset made.now) }
{
    match (made.event, made.found) {
        (
            Event::Queue {
                change: QueueChange::Runs,
                ..
            },
            Found::Nothing,
        ) => true,
        _ => false,
    }
}

/// Whether no event is named.
fn is_quiet(actor: u32, piece: &[Made]) -> bool
    ensures { IsTrue result ↔ (named_of (Some actor) piece.now ≡ []) }
{
    is_idle(Some(actor), piece)
}

/// Whether the queue runs from some offset on, and no named event follows.
fn only_runs(actor: u32, one: &Made, rest: &[Made]) -> bool
    ensures { IsTrue result ↔ (((offset : ℕ) × RunsFrom offset one.now) × (named_of (Some actor) rest.now ≡ [])) }
{
    runs(one) && is_quiet(actor, rest)
}

/// Whether an event stores a value in a plain word, and no named event follows.
fn is_only(actor: u32, word: PlainWord, value: u64, one: &Made, rest: &[Made]) -> bool
    ensures { IsTrue result ↔ (IsStored word value one.now × (named_of (Some actor) rest.now ≡ [])) }
{
    is_stored(word, value, one) && is_quiet(actor, rest)
}

/// Whether this can be the last event of a write of GITS_CBASER.
fn may_store(actor: u32, half: Half, value: u64, piece: &[Made]) -> bool
    requires { value < half_limit half }
    ensures { IsTrue result ↔ MayStore half value (named_of (Some actor) piece.now) }
{
    match from_named(Some(actor), piece).split_first() {
        None => true,
        Some((one, rest)) => {
            let written = cbaser_after(false, 0, half.written(held_in(one), value));
            is_only(actor, PlainWord::Cbaser, written, one, rest)
        }
    }
}

/// Whether these can be its last two.
fn may_start(actor: u32, half: Half, value: u64, piece: &[Made]) -> bool
    requires { value < half_limit half }
    ensures { IsTrue result ↔ MayStart half value (named_of (Some actor) piece.now) }
{
    match from_named(Some(actor), piece).split_first() {
        None => true,
        Some((one, rest)) => starts_anew(one) && may_store(actor, half, value, rest),
    }
}

/// Whether this can be the last event of a write of GITS_CWRITER.
fn may_run(actor: u32, written: u64, piece: &[Made]) -> bool
    ensures { IsTrue result ↔ MayRun written (named_of (Some actor) piece.now) }
{
    match from_named(Some(actor), piece).split_first() {
        None => true,
        Some((one, rest)) => has_bit(written, RETRY) && only_runs(actor, one, rest),
    }
}

/// Whether a write of GITS_CWRITER can have this event first, and these after it.
fn may_move(actor: u32, half: Half, value: u64, one: &Made, rest: &[Made]) -> bool
    requires { value < half_limit half }
    ensures { IsTrue result ↔ MayWrite CwriterReg half value one.now (named_of (Some actor) rest.now) }
{
    let written = half.written(held_in(one), value);
    is_stored(PlainWord::Cwriter, offset_in(written), one) && may_run(actor, written, rest)
}

/// Whether a write of GITS_BASER0 or GITS_BASER1, in its plain word, can have this event and no more.
fn may_set(actor: u32, word: PlainWord, half: Half, value: u64, one: &Made, rest: &[Made]) -> bool
    requires { value < half_limit half }
    ensures { IsTrue result ↔ (IsStored word (baser_bits (half_written half (held_of one.now) value)) one.now × (named_of (Some actor) rest.now ≡ [])) }
{
    let written = baser_after(false, 0, half.written(held_in(one), value));
    is_only(actor, word, written, one, rest)
}

/// Whether a write of a register can have this event first, and these after it.
fn may_write(actor: u32, reg: ItsReg, half: Half, value: u64, one: &Made, rest: &[Made]) -> bool
    requires { value < half_limit half }
    ensures { IsTrue result ↔ MayWrite reg half value one.now (named_of (Some actor) rest.now) }
{
    match reg {
        ItsReg::Ctlr => {
            let enabled = u64::from(has_bit(value, ENABLED));
            is_only(actor, PlainWord::ItsCtlr, enabled, one, rest)
        }
        ItsReg::Cbaser => {
            is_stored(PlainWord::Cwriter, 0, one) && may_start(actor, half, value, rest)
        }
        ItsReg::Cwriter => may_move(actor, half, value, one, rest),
        ItsReg::Baser0 => may_set(actor, PlainWord::Baser0, half, value, one, rest),
        ItsReg::Baser1 => may_set(actor, PlainWord::Baser1, half, value, one, rest),
        ItsReg::Iidr | ItsReg::Typer | ItsReg::Creadr | ItsReg::Pidr2 => false,
    }
}

/// Whether the named events of a piece can be the first ones of a write of a register.
fn may_begin(actor: u32, reg: ItsReg, half: Half, value: u64, piece: &[Made]) -> bool
    requires { value < half_limit half }
    ensures { IsTrue result ↔ MayBegin reg half value (named_of (Some actor) piece.now) }
{
    match from_named(Some(actor), piece).split_first() {
        None => true,
        Some((one, rest)) => may_write(actor, reg, half, value, one, rest),
    }
}

/// Whether they can be the first ones of a write of a register of the ITS that takes it, in some guest.
pub(crate) fn is_write_begun(
    shape: &GuestShape,
    actor: u32,
    offset: u32,
    size: u32,
    value: u64,
    piece: &[Made],
) -> bool
    requires good { IsTrue (is_good shape.now (Access (Mem ItsFrame offset size (Some value)))) }
    requires turn { takes_turn shape.now (its_decoded offset size) (Some value) ≡ true }
    ensures { IsTrue result ↔ IsWriteBegun shape.now actor offset size value piece.now }
{
    let _ = shape;
    match its_access(offset, size, Some(value)) {
        ItsRegRef::Plain { reg, half } => may_begin(actor, reg, half, value, piece),
        ItsRegRef::Reserved => true,
    }
}
