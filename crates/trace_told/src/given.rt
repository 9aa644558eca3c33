//! The values that a trace gives, beside what is there.
ghost use Rattle.std.specs.Prelude.{◌≡◌};
ghost use Rattle.legal_play.specs.Calls.{touch_answer, is_shown};
ghost use Rattle.legal_play.specs.Words.{IsIrq, IsRecordOf};
ghost use Rattle.trace_told.specs.Given.{word_at as word_at_place, place_at as place_at_place, shown as shown_at, stored_of as stored_at, is_word as is_word_at, is_read_as as is_read_as_at, is_answer as is_answer_that};

use legal_play::{
    CallFound as Found, Place, PlainWord, Table, baser, baser_after, creadr, dist_ctlr, has_bit,
    its_ctlr,
};
use trace_read::Place as TracePlace;

/// The bit of GITS_CTLR that is Enabled.
const ENABLED: u32 = 0;

/// The plain word that is put at a place, if one is.
pub(crate) fn word_at(place: TracePlace) -> Option<PlainWord>
    ensures { result ≡ word_at_place place }
{
    match place {
        TracePlace::Ram(index) => Some(PlainWord::Ram { index }),
        TracePlace::Propbaser(vcpu) => Some(PlainWord::Propbaser { vcpu }),
        TracePlace::Pendbaser(vcpu) => Some(PlainWord::Pendbaser { vcpu }),
        TracePlace::ItsCtlr => Some(PlainWord::ItsCtlr),
        TracePlace::Cbaser => Some(PlainWord::Cbaser),
        TracePlace::Cwriter => Some(PlainWord::Cwriter),
        TracePlace::Baser0 => Some(PlainWord::Baser0),
        TracePlace::Baser1 => Some(PlainWord::Baser1),
        TracePlace::Creadr | TracePlace::Ctlr | TracePlace::Lpis(_) => None,
    }
}

/// What is read at a place.
pub(crate) fn place_at(place: TracePlace) -> Place
    ensures { result ≡ place_at_place place }
{
    let word = match place {
        TracePlace::Ram(index) => PlainWord::Ram { index },
        TracePlace::Propbaser(vcpu) => PlainWord::Propbaser { vcpu },
        TracePlace::Pendbaser(vcpu) => PlainWord::Pendbaser { vcpu },
        TracePlace::ItsCtlr => PlainWord::ItsCtlr,
        TracePlace::Cbaser => PlainWord::Cbaser,
        TracePlace::Cwriter => PlainWord::Cwriter,
        TracePlace::Baser0 => PlainWord::Baser0,
        TracePlace::Baser1 => PlainWord::Baser1,
        TracePlace::Creadr => return Place::Queue,
        TracePlace::Ctlr => return Place::Ctlr,
        TracePlace::Lpis(vcpu) => return Place::Lpis { vcpu },
    };
    Place::Word { word }
}

/// What a register reads that stores this.
fn shown(place: TracePlace, stored: u64) -> u64
    ensures { result ≡ shown_at place stored }
{
    match place {
        TracePlace::ItsCtlr => u64::from(its_ctlr(has_bit(stored, ENABLED))),
        TracePlace::Baser0 => baser(Table::Devices, stored),
        TracePlace::Baser1 => baser(Table::Collections, stored),
        _ => stored,
    }
}

/// What it stores of a value.
pub(crate) fn stored_of(place: TracePlace, value: u64) -> u64
    ensures { result ≡ stored_at place value }
{
    match place {
        TracePlace::ItsCtlr => u64::from(has_bit(value, ENABLED)),
        TracePlace::Baser0 | TracePlace::Baser1 => baser_after(false, 0, value),
        _ => value,
    }
}

/// Whether a value is what a place stores, or what its register reads then.
pub(crate) fn is_word(place: TracePlace, value: u64, stored: u64) -> bool
    ensures { result ≡ is_word_at place value stored }
{
    value == stored || value == shown(place, stored)
}

/// Whether a value is what was found at a place.
pub(crate) fn is_read_as(place: TracePlace, value: u64, found: &Found) -> bool
    ensures { result ≡ is_read_as_at place value found.now }
{
    match *found {
        Found::Word { value: stored } => is_word(place, value, stored),
        Found::Queue { offset, is_stalled } => value == creadr(is_stalled, offset),
        Found::Ctlr {
            enables,
            is_spreading,
        } => value == u64::from(dist_ctlr(enables, is_spreading)),
        Found::Lpis { is_on } => value == u64::from(is_on),
        _ => false,
    }
}

/// Whether an answer is this, or there is none.
pub(crate) fn is_answer(given: Option<u64>, answer: Option<u64>) -> bool
    ensures { result ≡ is_answer_that given answer }
{
    given == answer
}
