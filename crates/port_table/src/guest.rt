//! The words of one guest, and its root.
ghost use Rattle.std.specs.Prelude.{◌≡◌};
ghost use Rattle.port_ops.specs.PortCore.IdealGuests.CanOpen.{CanOpen};
ghost use Rattle.port_ops.specs.Props.{can_open_prop};
ghost use Rattle.port_ops.specs.PortCore.Place.{word_count as count_of_words};
ghost use Rattle.port_table.specs.declared.view.View.TheVariants.{Root};
ghost use Rattle.port_table.specs.View.{split_of, joined_of};

use crate::rule::ManyThreads;
use crate::view::View;
use atomic_table::{Seat, Table};
use port_ops::{CpuRec, ItsTables, Opened};
use scn_base::{GuestShape, ListOf};
use std::alloc::Global;

/// The words that the actors of a guest share, with the tables of its ITS in a slot; and the records of its CPU interfaces as it opened.
#[derive(Drop)]
pub struct GuestTable {
    pub(crate) shape: GuestShape,
    pub(crate) number: u32,
    pub(crate) cpus: ListOf<CpuRec>,
    pub(crate) table: Table<Option<ItsTables>, View, Opened, ManyThreads, Global>,
    ghost good: { CanOpen table.shared.key.guest } by { can_open_prop table.shared.key.guest },
    ghost same: { shape ≡ table.shared.key.guest.shape },
    ghost numbered: { number ≡ table.shared.key.number },
    ghost interfaces: { cpus ≡ table.shared.key.guest.cpus },
    ghost words: { table.shared.table_id.words ≡ count_of_words table.shared.key.guest.shape },
    ghost slots: { table.shared.table_id.slots ≡ 1 },
}

/// The seat of no actor of a guest, which the seats of its actors are split off from and joined into.
#[derive(Drop)]
pub struct GuestRoot {
    pub(crate) seat: Seat<Option<ItsTables>, View>,
    ghost root: { seat.me.0 ≡ Root (split_of seat.me.0) (joined_of seat.me.0) },
}
