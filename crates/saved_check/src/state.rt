//! The state of one guest.
ghost use Rattle.std.specs.Prelude.{◌↔◌, ◌<◌, IsTrue, IfOk, All};
ghost use Rattle.saved_guest.specs.IdealGuests.Words.{IsShape};
ghost use Rattle.saved_guest.specs.IdealGuests.Calls.{IsGoodGuest, EvtEnd as MappedEvent, ColEnd as MappedCollection};
ghost use Rattle.saved_guest.specs.Valid.{IsValidCpu, IsValidRec, IsValidRedist, IsValidWord, IsValidState};
ghost use Rattle.saved_check.specs.Rows.{HasValidRegisters, HasValidIts, HasValidRows};

use crate::order::{are_recs_in_order, are_words_in_order};
use crate::records::{have_copies, have_their_targets, records};
use crate::rows::{is_valid_cpu, is_valid_its, is_valid_rec, is_valid_redist, is_valid_word};
use crate::tables::tables;
use saved_guest::{
    ColEnd, CpuState, EvtEnd, GuestShape, GuestSpec, GuestState, NoMemory, RamState, RecState,
    RedistState, enables_in,
};
use std::alloc::Global;

/// Both group enables of GICD_CTLR.
const BOTH_ENABLES: u32 = 3;
/// How many collections there are: an ICID has 16 bits.
const COLLECTIONS: u32 = 1 << 16;

/// Whether each CPU interface is one that a vCPU can have.
fn are_valid_cpus(cpus: &[CpuState], shape: &GuestShape) -> bool
    ensures { IsTrue result ↔ All (IsValidCpu shape.now) cpus.now }
{
    cpus.iter().all(|cpu| is_valid_cpu(cpu, shape))
}

/// The same of redistributors.
fn are_valid_redists(redists: &[RedistState]) -> bool
    ensures { IsTrue result ↔ All IsValidRedist redists.now }
{
    redists.iter().all(|redist| is_valid_redist(redist))
}

/// The same of records.
fn are_valid_recs(recs: &[RecState], shape: &GuestShape) -> bool
    requires { IsShape shape.now }
    ensures { IsTrue result ↔ All (IsValidRec shape.now) recs.now }
{
    recs.iter().all(|rec| is_valid_rec(rec, shape))
}

/// The same of words of memory.
fn are_valid_words(words: &[RamState], shape: &GuestShape) -> bool
    ensures { IsTrue result ↔ All (IsValidWord shape.now) words.now }
{
    words.iter().all(|ram| is_valid_word(ram, shape))
}

/// Whether the collection of each event has a number of 16 bits.
fn have_collections(evts: &[EvtEnd]) -> bool
    ensures { IsTrue result ↔ All (λ (evt : MappedEvent). evt.icid < 65536) evts.now }
{
    evts.iter().all(|evt| u32::from(evt.icid) < COLLECTIONS)
}

/// The same of collections.
fn are_collections(cols: &[ColEnd]) -> bool
    ensures { IsTrue result ↔ All (λ (col : MappedCollection). col.icid < 65536) cols.now }
{
    cols.iter().all(|col| u32::from(col.icid) < COLLECTIONS)
}

/// Whether the registers are ones that the guest can have.
fn has_valid_registers(state: &GuestState, shape: &GuestShape) -> bool
    ensures { IsTrue result ↔ HasValidRegisters shape.now state.now }
{
    state.gicd <= BOTH_ENABLES
        && state.cpu.len() == shape.vcpus as usize
        && are_valid_cpus(state.cpu.as_slice(), shape)
        && state.redist.len() == shape.vcpus as usize
        && are_valid_redists(state.redist.as_slice())
}

/// Whether there is an ITS exactly where the guest has LPIs, and it can be so; without one nothing is mapped.
fn has_valid_its(state: &GuestState, shape: &GuestShape) -> bool
    ensures { IsTrue result ↔ HasValidIts shape.now state.now }
{
    let fits = match &state.its {
        Some(its) => shape.lpis > 0 && is_valid_its(its),
        None => shape.lpis == 0 && state.dev.is_empty() && state.col.is_empty(),
    };
    fits && have_collections(state.evt.as_slice()) && are_collections(state.col.as_slice())
}

/// Whether the interrupts and the words of memory that are told are the guest's, and stand in order.
fn has_valid_rows(state: &GuestState, shape: &GuestShape) -> bool
    requires { IsShape shape.now }
    ensures { IsTrue result ↔ HasValidRows shape.now state.now }
{
    let (recs, words) = (state.rec.as_slice(), state.ram.as_slice());
    are_valid_recs(recs, shape)
        && are_recs_in_order(recs, shape)
        && are_valid_words(words, shape)
        && are_words_in_order(words)
}

/// Whether a state is one that a guest can have between two steps. `NoMemory` where memory is refused. It takes time that grows
/// little faster than what the guest has.
pub fn is_valid_state(
    alloc: Global,
    guest: &GuestSpec,
    state: &GuestState,
) -> Result<bool, NoMemory>
    requires { IsGoodGuest guest.now }
    ensures { IfOk result (λ valid. IsTrue valid ↔ IsValidState guest.now state.now) }
{
    let shape = &guest.shape;
    if !has_valid_registers(state, shape) || !has_valid_its(state, shape) {
        return Ok(false);
    }
    if !has_valid_rows(state, shape) {
        return Ok(false);
    }
    let Some(tables) = tables(alloc, shape, state)? else {
        return Ok(false);
    };
    let irqs = records(alloc, guest, state.rec.as_slice())?;
    let irqs = irqs.as_slice();
    Ok(have_copies(irqs, shape, enables_in(state.gicd)) && have_their_targets(irqs, shape, &tables))
}
