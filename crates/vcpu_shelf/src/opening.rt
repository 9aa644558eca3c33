//! The shelf as it opens.
ghost use Rattle.std.specs.Prelude.{◌≡◌, ◌<◌, ◌^◌, ◌≤◌, IfOk, map, vec_len, Some};
ghost use Rattle.vcpu_shelf.specs.Answer.{AreInPlace};
ghost use Rattle.vcpu_shelf.specs.Shelf.{shelf_told, seat_told};
ghost use Rattle.vcpu_shelf.specs.Told.{opening_seat};
ghost use Rattle.vcpu_shelf.specs.Word.{stored_word as word_stored};

use crate::rule::Reserve;
use crate::shelf::{Shelf, ShelfSeat};
use crate::traveller::Traveller;
use crate::word::stored_word;
use atomic_table::Table;
use floor_words::NoMemory;
use std::alloc::{AllocError, Global};

/// The owner word of each traveller.
fn opening_words<T: Traveller>(alloc: Global, all: &[T]) -> Result<Vec<u64>, AllocError>
    ensures { IfOk result (λ words. words.items ≡ map (λ traveller. word_stored (T.done traveller) (T.next traveller)) all.now) }
{
    let mut words = Vec::new(alloc);
    for traveller in all {
        words.push(stored_word(traveller.done(), traveller.next()))?;
    }
    Ok(words)
}

/// A slot for each traveller.
fn opening_slots<T: Traveller>(alloc: Global, all: Vec<T>) -> Result<Vec<Option<T>>, AllocError>
    ensures { IfOk result (λ slots. slots.items ≡ map Some all.items) }
{
    let mut slots = Vec::new(alloc);
    for traveller in all {
        slots.push(Some(traveller))?;
    }
    Ok(slots)
}

/// Room for so many travellers.
fn reserve<T: Traveller>(
    alloc: Global,
    places: u32,
) -> Result<Table<Vec<Option<T>>, (), u32, Reserve, Global>, AllocError>
    ensures key { IfOk result (λ reserve. reserve.shared.key ≡ places) }
    ensures one { IfOk result (λ reserve. reserve.shared.table_id.slots ≡ 1) }
{
    let mut slots = Vec::new(alloc);
    slots.push(Vec::with_capacity(alloc, places as usize)?)?;
    match Table::new(alloc, &[], slots, &places) {
        Ok((table, _seat)) => Ok(table),
        Err(_) => Err(AllocError),
    }
}

/// A shelf of these travellers, each on its place, and a first seat at it. A place opens finished where its traveller is done,
/// else free. An error where memory is refused; the travellers are dropped then.
pub fn of<T: Traveller>(alloc: Global, all: Vec<T>) -> Result<(Shelf<T>, ShelfSeat<T>), NoMemory>
    requires some { 0 < vec_len all }
    requires few { vec_len all < 2 ^ 32 }
    requires placed { AreInPlace T.place all.items }
    ensures places { IfOk result (λ both. (shelf_told both.0).places ≡ vec_len all) }
    ensures seat { IfOk result (λ both. seat_told both.1 ≡ opening_seat (shelf_told both.0)) }
{
    let places = all.len() as u32;
    let words = opening_words(alloc, all.as_slice())?;
    let slots = opening_slots(alloc, all)?;
    let reserve = reserve(alloc, places)?;
    match Table::new(alloc, words.as_slice(), slots, &places) {
        Ok((owners, seat)) => Ok((
            Shelf {
                owners,
                reserve,
                places,
            },
            ShelfSeat { seat },
        )),
        Err(_) => Err(NoMemory),
    }
}
