//! The shelf, and a seat at it.
ghost use Rattle.std.specs.Prelude.{◌≡◌, ◌<◌};
ghost use Rattle.std.specs.Option.{ForSome};
ghost use Rattle.vcpu_shelf.specs.View.{slots_out};

use crate::rule::{OneOwner, Reserve};
use crate::traveller::Traveller;
use crate::view::View;
use atomic_table::{Seat, Table};
use std::alloc::Global;

/// A place for each traveller, with its owner word. Threads share it by reference.
#[derive(Drop)]
pub struct Shelf<T: Traveller> {
    pub(crate) owners: Table<Option<T>, View, u32, OneOwner, Global>,
    // Room for all travellers at the end. It lies in a table of its own, since a vector may be shared only where its elements may.
    pub(crate) reserve: Table<Vec<Option<T>>, (), u32, Reserve, Global>,
    pub(crate) places: u32,
    ghost some: { 0 < places },
    ghost key: { owners.shared.key ≡ places },
    ghost words: { owners.shared.table_id.words ≡ places },
    ghost slots: { owners.shared.table_id.slots ≡ places },
    ghost room: { reserve.shared.key ≡ places },
    ghost one: { reserve.shared.table_id.slots ≡ 1 },
}

/// What one thread takes and puts with: it has at most one traveller out.
#[derive(Drop)]
pub struct ShelfSeat<T> {
    pub(crate) seat: Seat<Option<T>, View>,
    ghost held: { seat.me.1 ≡ slots_out seat.me.0.out },
    ghost there: { ForSome seat.me.0.out (λ place. place < seat.table_id.words) },
}
