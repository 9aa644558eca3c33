//! A PE puts a traveller back.
ghost use Rattle.std.specs.Prelude.{◌≡◌, Some};
ghost use Rattle.vcpu_shelf.specs.Answer.{putting};
ghost use Rattle.vcpu_shelf.specs.Shelf.{shelf_told, seat_told};
ghost use Rattle.vcpu_shelf.specs.Told.{IsOf};

use crate::shelf::{Shelf, ShelfSeat};
use crate::steps::give_back;
use crate::traveller::Traveller;

/// Puts the traveller that the seat has out back on its place, which is then finished where the traveller is done, or else
/// free. It takes no memory.
pub fn put<T: Traveller>(shelf: &Shelf<T>, seat: &mut ShelfSeat<T>, traveller: T)
    requires of { IsOf (shelf_told shelf.now) (seat_told seat.old) }
    requires out { (seat_told seat.old).out ≡ Some (T.place traveller) }
    ensures { seat_told seat.new ≡ putting T.place T.next T.done traveller (seat_told seat.old) }
{
    give_back(&shelf.owners.shared, &mut seat.seat, traveller);
}
