//! A PE asks the shelf for a traveller.
ghost use Rattle.std.specs.Prelude.{◌≡◌, false, None, Some};
ghost use Rattle.vcpu_shelf.specs.Answer.{IfVcpu, OnNone, OnAllDone, IsTaking};
ghost use Rattle.vcpu_shelf.specs.Shelf.{shelf_told, seat_told};
ghost use Rattle.vcpu_shelf.specs.Told.{IsOf, SawAllDone};

use crate::scan::{Found, find_at};
use crate::shelf::{Shelf, ShelfSeat};
use crate::traveller::{Taken, Traveller};

/// Looks once at each owner word, in rising order, until it has a traveller: where a place is free, it tries once to take it.
/// It takes no memory.
pub fn take<T: Traveller>(shelf: &Shelf<T>, seat: &mut ShelfSeat<T>) -> Taken<T>
    requires of { IsOf (shelf_told shelf.now) (seat_told seat.old) }
    requires none { (seat_told seat.old).out ≡ None }
    ensures takes { IsTaking T.place T.next T.done (shelf_told shelf.now).places (seat_told seat.old) result (seat_told seat.new) }

    // What follows from it.
    ensures of { IsOf (shelf_told shelf.now) (seat_told seat.new) }
    ensures out { IfVcpu result (λ traveller. (seat_told seat.new).out ≡ Some (T.place traveller)) }
    ensures not_done { IfVcpu result (λ traveller. T.done traveller ≡ false) }
    ensures none { OnNone result ((seat_told seat.new).out ≡ None) }
    ensures all_done { OnAllDone result (SawAllDone (shelf_told shelf.now) (seat_told seat.new)) }
{
    let mut all_done = true;
    for place in 0..shelf.places as usize {
        match find_at(&shelf.owners.shared, &mut seat.seat, place) {
            Found::Finished => {}
            Found::Held => all_done = false,
            Found::Had(traveller) => return Taken::Vcpu(traveller),
        }
    }
    if all_done {
        Taken::AllDone
    } else {
        Taken::Busy
    }
}
