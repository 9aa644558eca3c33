//! Seats for more threads.
ghost use Rattle.std.specs.Prelude.{◌≡◌, ◌⊎◌, None};
ghost use Rattle.vcpu_shelf.specs.Shelf.{shelf_told, seat_told};
ghost use Rattle.vcpu_shelf.specs.Told.{IsOf, SawAllDone, opening_seat, with_steps_of};

use crate::rule::{Joining, Splitting};
use crate::shelf::{Shelf, ShelfSeat};
use crate::traveller::Traveller;

/// One more seat, which knows no steps and has nothing out. It takes no memory.
pub fn split<T: Traveller>(shelf: &Shelf<T>, seat: &mut ShelfSeat<T>) -> ShelfSeat<T>
    requires of { IsOf (shelf_told shelf.now) (seat_told seat.old) }
    ensures new { seat_told result ≡ opening_seat (shelf_told shelf.now) }
    ensures same { seat_told seat.new ≡ seat_told seat.old }
{
    let other = shelf.owners.shared.split_seat::<Splitting>(&mut seat.seat);
    ShelfSeat { seat: other }
}

/// A seat takes in the steps of another, which is used no more. It takes no memory.
pub fn join<T: Traveller>(shelf: &Shelf<T>, seat: &mut ShelfSeat<T>, other: ShelfSeat<T>)
    requires of { IsOf (shelf_told shelf.now) (seat_told seat.old) }
    requires other { IsOf (shelf_told shelf.now) (seat_told other) }
    requires none { (seat_told other).out ≡ None }
    ensures joined { seat_told seat.new ≡ with_steps_of (seat_told other) (seat_told seat.old) }
    ensures all_done { (SawAllDone (shelf_told shelf.now) (seat_told seat.old) ⊎ SawAllDone (shelf_told shelf.now) (seat_told other)) → SawAllDone (shelf_told shelf.now) (seat_told seat.new) }
{
    let owners = &shelf.owners.shared;
    let ShelfSeat { seat: other } = other;
    owners.join_seat::<Joining>(&mut seat.seat, other);
}
