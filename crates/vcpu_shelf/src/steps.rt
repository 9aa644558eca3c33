//! The steps of a seat on one owner word, each one atomic operation.
ghost use Rattle.std.specs.Prelude.{◌≡◌, ◌<◌, [], IsTrue, Some};
ghost use Rattle.vcpu_shelf.specs.Rule.{IsLooked, IsTried, IsStored};
ghost use Rattle.vcpu_shelf.specs.View.{slots_out, stored as view_after_put};
ghost use Rattle.vcpu_shelf.specs.Word.{is_free as free_in, stored_word as word_stored};

use crate::rule::{Looking, OwnerSeat, Owners, Storing, Trying};
use crate::traveller::Traveller;
use crate::word::{TAKEN, next_in, owner_word, stored_word};

/// Looks at an owner word, and answers it.
pub(crate) fn look<T: Traveller>(owners: &Owners<T>, seat: &mut OwnerSeat<T>, place: usize) -> u64
    requires home { seat.old.table_id ≡ owners.now.table_id }
    requires words { owners.now.table_id.words ≡ owners.now.key }
    requires there { place < owners.now.key }
    ensures home { seat.new.table_id ≡ seat.old.table_id }
    ensures looked { IsLooked place seat.old.me result seat.new.me }
{
    owners.load::<Looking>(seat, place)
}

/// Tries once to take a place whose word was seen free, against the word that was seen, and answers the word as it was.
pub(crate) fn attempt<T: Traveller>(
    owners: &Owners<T>,
    seat: &mut OwnerSeat<T>,
    place: usize,
    seen: u64,
) -> u64
    requires home { seat.old.table_id ≡ owners.now.table_id }
    requires words { owners.now.table_id.words ≡ owners.now.key }
    requires slots { owners.now.table_id.slots ≡ owners.now.key }
    requires there { place < owners.now.key }
    requires free { IsTrue (free_in seen) }
    ensures home { seat.new.table_id ≡ seat.old.table_id }
    ensures tried { IsTried T.place T.next T.done place seen seat.old.me result seat.new.me }
{
    owners.compare_exchange::<Trying>(seat, place, seen, owner_word(TAKEN, next_in(seen)))
}

/// Puts a traveller into the slot of its place, which is out with the seat, and gives the place back.
pub(crate) fn give_back<T: Traveller>(owners: &Owners<T>, seat: &mut OwnerSeat<T>, traveller: T)
    requires home { seat.old.table_id ≡ owners.now.table_id }
    requires words { owners.now.table_id.words ≡ owners.now.key }
    requires slots { owners.now.table_id.slots ≡ owners.now.key }
    requires there { T.place traveller < owners.now.key }
    requires out { seat.old.me.0.out ≡ Some (T.place traveller) }
    requires held { seat.old.me.1 ≡ slots_out seat.old.me.0.out }
    ensures home { seat.new.table_id ≡ seat.old.table_id }
    ensures knows { seat.new.me.0 ≡ view_after_put (T.place traveller) (word_stored (T.done traveller) (T.next traveller)) seat.old.me.0 }
    ensures holds { seat.new.me.1 ≡ [] }
{
    let place = traveller.place() as usize;
    let word = stored_word(traveller.done(), traveller.next());
    drop(owners.exchange(seat, place, Some(traveller)));
    owners.store::<Storing>(seat, place, word);
}
