//! The shelf at the end.
ghost use Rattle.std.specs.Prelude.{◌≡◌, ◌≤◌, [], vec_capacity};
ghost use Rattle.std.specs.Slots.{slots_items, slots_len, IsFull};
ghost use Rattle.vcpu_shelf.specs.Answer.{AreBack};
ghost use Rattle.vcpu_shelf.specs.Reserve.{HasRoom};
ghost use Rattle.vcpu_shelf.specs.Shelf.{shelf_told, seat_told};
ghost use Rattle.vcpu_shelf.specs.Told.{IsOf, SawAllDone};

use crate::rule::Reserve;
use crate::shelf::{Shelf, ShelfSeat};
use crate::traveller::Traveller;
use atomic_table::{Closed, Table};
use std::alloc::Global;

/// The vector that was kept for so many travellers.
fn reserved<T: Traveller>(
    reserve: Table<Vec<Option<T>>, (), u32, Reserve, Global>,
) -> Vec<Option<T>>
    requires { reserve.shared.table_id.slots ≡ 1 }
    ensures { HasRoom reserve.shared.key result }
{
    let mut closed = reserve.close();
    let room = closed.take(0);
    closed.free();
    room
}

/// What lies in the slots of a closed table, of which there are so many; its memory is given back.
fn drain<T: Traveller>(
    closed: Closed<Option<T>, Global>,
    room: Vec<Option<T>>,
    count: usize,
) -> Vec<Option<T>>
    requires full { IsFull closed.slots }
    requires count { slots_len closed.slots ≡ count }
    requires room { HasRoom count room }
    ensures { result.items ≡ slots_items closed.slots }
{
    let mut closed = closed;
    let mut room = room;
    for place in 0..count {
        room.push_reserved(closed.take(place));
    }
    closed.free();
    room
}

/// The travellers, each done and at its place, once the seat, or one that was joined into it, was answered `AllDone`. It takes
/// no memory.
pub fn close<T: Traveller>(shelf: Shelf<T>, seat: ShelfSeat<T>) -> Vec<Option<T>>
    requires of { IsOf (shelf_told shelf) (seat_told seat) }
    requires done { SawAllDone (shelf_told shelf) (seat_told seat) }
    ensures { AreBack T.place T.done (shelf_told shelf).places result.items }
{
    let Shelf {
        owners,
        reserve,
        places,
    } = shelf;
    let ShelfSeat { seat } = seat;
    let room = reserved(reserve);
    drain(owners.close_with(seat), room, places as usize)
}
