//! The record of an interrupt, behind its name.
ghost use Rattle.std.specs.Prelude.{◌≡◌, ◌≢◌, ◌<◌, ◌^◌, ◌++◌, ℕ, List, [], ◌∷◌, length, map, slice_index, IsTrue, IfOk, IfSome, MatchOption, Some, None, true, decimal};
ghost use Rattle.serde_json.specs.Data.{string};
ghost use Rattle.serde_json.specs.View.{view};
ghost use Rattle.gic_resume.specs.GicSave.Cell.{cell_data};
ghost use Rattle.gic_resume.specs.GicSave.Image.{rec_cells, rec_data};
ghost use Rattle.gic_resume.specs.GicSave.ScnSaved.Name.{name_text};
ghost use Rattle.saved_check.specs.SavedGuest.IdealGuests.Words.{GuestShape as Shape, Key as Interrupt, IsShape, has_interrupt};
ghost use Rattle.saved_check.specs.SavedGuest.ScnSaved.declared.state.RecState.{RecState as Rec};
ghost use Rattle.saved_check.specs.SavedGuest.Valid.{IsValidRec};
ghost use Rattle.image_read.specs.Fits.{is_shared};

use crate::row::{Row, split};
use crate::told::Told;
use json_field::list_of;
use saved_check::{Key, RecState};
use scn_saved::Name;
use serde_json::Value;
use std::alloc::{AllocError, Global};

/// What stands between a vCPU and an INTID.
const BETWEEN: char = ':';
/// The INTID of the first LPI.
const FIRST_LPI: u32 = 8192;

/// The number of 32 bits that decimal digits write.
fn number(text: &str) -> Option<u32>
    ensures { (n : ℕ) → n < 2 ^ 32 → text.now ≡ decimal n → result ≡ Some n }
{
    text.parse::<u32>().ok()
}

/// What stands before the first colon, and after it. None where there is no colon.
fn halves(text: &str) -> Option<(&str, &str)>
    ensures some { (a b : List ℕ) → text.now ≡ a ++ 58 ∷ b → ((i : ℕ) → i < length a → slice_index a i ≢ 58) → MatchOption result ⊥ (λ pair. (pair.0.now ≡ a) × (pair.1.now ≡ b)) }
    ensures none { ((i : ℕ) → i < length text.now → slice_index text.now i ≢ 58) → result ≡ None }
{
    text.split_once(BETWEEN)
}

/// The private interrupt of a vCPU.
fn private(owner: &str, id: &str) -> Option<Key>
    ensures { (vcpu n : ℕ) → vcpu < 2 ^ 32 → n < 2 ^ 32 → owner.now ≡ 118 ∷ decimal vcpu → id.now ≡ decimal n → result ≡ Some (Interrupt.Private vcpu n) }
{
    let vcpu = number(owner.strip_prefix('v')?)?;
    let id = number(id)?;
    Some(Key::Private { vcpu, id })
}

/// The shared interrupt of an INTID.
fn shared(text: &str) -> Option<Key>
    ensures { (shape : Shape) (key : Interrupt) → IsShape shape → IsTrue (has_interrupt shape key) → is_shared key ≡ true → text.now ≡ name_text key → result ≡ Some key }
{
    let id = number(text)?;
    Some(if id < FIRST_LPI {
        Key::Spi(id)
    } else {
        Key::Lpi(id)
    })
}

/// The interrupt of a guest that has this name, where one has.
fn named(text: &str) -> Option<Key>
    ensures { (shape : Shape) (key : Interrupt) → IsShape shape → IsTrue (has_interrupt shape key) → text.now ≡ name_text key → result ≡ Some key }
{
    match halves(text) {
        Some((owner, id)) => private(owner, id),
        None => shared(text),
    }
}

/// The interrupt whose name a value is. None where it is that of no interrupt.
fn key(alloc: Global, value: &Value) -> Result<Option<Key>, AllocError>
    ensures told { IfOk result (λ found. IfSome found (λ key. string (name_text key) ≡ view value.now)) }
    ensures only { (shape : Shape) (key : Interrupt) → IsShape shape → IsTrue (has_interrupt shape key) → string (name_text key) ≡ view value.now → IfOk result (λ found. found ≡ Some key) }
{
    let Some(text) = value.as_str() else {
        return Ok(None);
    };
    let Some(key) = named(text) else {
        return Ok(None);
    };
    let written = format!(in alloc; "{}", Name(key))?;
    Ok((written.as_str() == text).then_some(key))
}

/// The record of an interrupt, by its numbers.
fn record_told(key: Key, numbers: &[Value]) -> Option<RecState>
    ensures told { IfSome result (λ (rec : Rec). (rec.key ≡ key) × (map cell_data (rec_cells rec) ≡ map view numbers.now)) }
    ensures only { (shape : Shape) (rec : Rec) → IsShape shape → IsValidRec shape rec → rec.key ≡ key → map cell_data (rec_cells rec) ≡ map view numbers.now → result ≡ Some rec }
{
    let mut row = Row::after(numbers);
    let rec = RecState {
        key,
        enabled: row.flag(),
        group: row.byte(),
        prio: row.byte(),
        edge: row.flag(),
        line: row.flag(),
        rise: row.flag(),
        soft: row.flag(),
        act: row.word_or_null(),
        route: row.word_or_null(),
        en0: row.flag(),
        en1: row.flag(),
        mover: row.word_or_null(),
    };
    row.end(rec)
}

impl Told for RecState {
    ghost written = { rec_data };

    ghost can_stand = { IsValidRec };

    fn told(alloc: Global, value: &Value) -> Result<Option<Self>, AllocError> {
        let Some((name, numbers)) = split(list_of(value)) else {
            return Ok(None);
        };
        let Some(key) = key(alloc, name)? else {
            return Ok(None);
        };
        Ok(record_told(key, numbers))
    }
}
