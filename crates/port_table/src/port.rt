//! The port of one actor over words that all actors of its guest share.
ghost use Rattle.std.specs.Prelude.{◌≡◌, ◌<◌};
ghost use Rattle.port_ops.specs.PortCore.IdealGuests.CanOpen.{CanOpen};
ghost use Rattle.port_ops.specs.Props.{can_open_prop};
ghost use Rattle.port_ops.specs.PortCore.Actor.{actor_count as count_of};
ghost use Rattle.port_ops.specs.PortCore.Known.{known_maps};
ghost use Rattle.port_ops.specs.PortCore.Place.{word_count as count_of_words};
ghost use Rattle.port_ops.specs.PortCore.Valid.{IsLocal};
ghost use Rattle.port_table.specs.declared.view.View.TheVariants.{Out};
ghost use Rattle.port_table.specs.Rule.{local_of};
ghost use Rattle.port_table.specs.Slot.{held as held_by, has_taken};
ghost use Rattle.port_table.specs.View.{own_of};

use crate::rule::ManyThreads;
use crate::view::View;
use atomic_table::{Seat, Shared};
use port_ops::{ItsTables, Local, Opened};
use scn_base::GuestShape;

/// An actor's port, which any thread may use: the actor's seat at the shared words, and what the actor has for itself.
#[derive(Drop)]
pub struct TablePort<'a> {
    pub(crate) table: &'a Shared<Option<ItsTables>, View, Opened, ManyThreads>,
    pub(crate) seat: Seat<Option<ItsTables>, View>,
    pub(crate) local: Local,
    pub(crate) shape: GuestShape,
    pub(crate) guest: u32,
    pub(crate) actor: u32,
    ghost good: { CanOpen table.now.key.guest } by { can_open_prop table.now.key.guest },
    ghost there: { actor < count_of table.now.key.guest.shape },
    ghost home: { seat.table_id ≡ table.now.table_id },
    ghost words: { table.now.table_id.words ≡ count_of_words table.now.key.guest.shape },
    ghost slots: { table.now.table_id.slots ≡ 1 },
    ghost same: { shape ≡ table.now.key.guest.shape },
    ghost number: { guest ≡ table.now.key.number },
    ghost view: { seat.me.0 ≡ Out actor (own_of seat.me.0) },
    ghost made: { local ≡ local_of table.now.key actor (own_of seat.me.0) },
    ghost valid: { ∥ IsLocal table.now.key.guest.shape actor local ∥₁ },
    ghost held: { seat.me.1 ≡ held_by local.turn (has_taken seat.me.1) (known_maps (own_of seat.me.0)) },
}
