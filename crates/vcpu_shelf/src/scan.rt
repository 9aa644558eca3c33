//! What one place comes to in a scan of the owner words.
ghost use Rattle.std.specs.Prelude.{◌≡◌, ◌<◌, [], None};
ghost use Rattle.vcpu_shelf.specs.Found.{Finds};

use crate::rule::{OwnerSeat, Owners};
use crate::steps::{attempt, look};
use crate::traveller::Traveller;
use crate::word::{is_finished, is_free};

/// What was found at one place.
pub(crate) enum Found<T> {
    /// It is finished.
    Finished,
    /// It is taken, or the try to take it was lost.
    Held,
    /// It was taken, with its traveller.
    Had(T),
}

/// Looks once at the owner word of a place, and tries once to take it where it is free.
pub(crate) fn find_at<T: Traveller>(
    owners: &Owners<T>,
    seat: &mut OwnerSeat<T>,
    place: usize,
) -> Found<T>
    requires home { seat.old.table_id ≡ owners.now.table_id }
    requires words { owners.now.table_id.words ≡ owners.now.key }
    requires slots { owners.now.table_id.slots ≡ owners.now.key }
    requires there { place < owners.now.key }
    requires out { seat.old.me.0.out ≡ None }
    requires none { seat.old.me.1 ≡ [] }
    ensures home { seat.new.table_id ≡ seat.old.table_id }
    ensures finds { Finds T.place T.next T.done place seat.old.me result seat.new.me }
{
    let word = look(owners, seat, place);
    if is_finished(word) {
        return Found::Finished;
    }
    if !is_free(word) {
        return Found::Held;
    }
    if attempt(owners, seat, place, word) != word {
        return Found::Held;
    }
    match owners.exchange(seat, place, None) {
        Some(traveller) => Found::Had(traveller),
        None => unreachable!(),
    }
}
