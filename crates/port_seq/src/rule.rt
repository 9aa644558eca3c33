//! The rule of the words of a guest that is run in one thread, and one step under it.
ghost use Rattle.std.specs.Prelude.{◌≡◌, ℕ, ◌<◌, []};
ghost use Rattle.port_ops.specs.PortCore.IdealGuests.CanOpen.{CanOpen};
ghost use Rattle.port_ops.specs.PortCore.Actor.{actor_count};
ghost use Rattle.port_ops.specs.PortCore.Atomic.{Makes};
ghost use Rattle.port_ops.specs.PortCore.Condition.{Meets};
ghost use Rattle.port_ops.specs.PortCore.Place.{place_of_word, word_count};
ghost use Rattle.port_ops.specs.PortCore.Run.{seat_at};
ghost use Rattle.port_ops.specs.PortCore.Step.{CanStep, word_of};
ghost use Rattle.port_seq.specs.Rule.{IsAfter, IsMade};
ghost use Rattle.port_ops.specs.World.{state_after};

use atomic_table::{Seat, Shared, TableRule};
use port_ops::{Atomic, CoreStep, Doing, Entry, Opened, Tells, operate};
use scn_base::ListOf;
use std::marker::{Brand, PhantomData};

/// The words are those after the steps that the one seat knows.
pub struct OneThread;

impl TableRule<(), ListOf<Entry>, Opened> for OneThread {
    ghost holds = { IsAfter };

    ghost first = { λ _. [] };
}

/// Tells that it was made. No value of it is made.
pub(crate) struct Making<D> {
    marker: PhantomData<D>,
}

impl<D: Doing> Tells<(), ListOf<Entry>> for Making<D> {
    ghost told = { IsMade D.opened D.actor D.step };
}

/// Makes a step, of which the proof has picked the names.
#[inline(always)]
fn make_as<D: Doing>(
    table: &Shared<(), ListOf<Entry>, Opened, OneThread>,
    seat: &mut Seat<(), ListOf<Entry>>,
    place: usize,
    atomic: Atomic,
    _actor: u32,
    _step: &CoreStep,
) -> u64
    requires home { seat.old.table_id ≡ table.now.table_id }
    requires opened { D.opened ≡ table.now.key }
    requires good { CanOpen D.opened.guest }
    requires words { table.now.table_id.words ≡ word_count D.opened.guest.shape }
    requires actor { D.actor < actor_count D.opened.guest.shape }
    requires can { CanStep D.opened.guest.shape D.actor D.step }
    requires meets { Meets D.opened.guest.shape D.actor (seat_at (state_after D.opened.guest D.opened.number seat.old.me.0) D.actor).local (seat_at (state_after D.opened.guest D.opened.number seat.old.me.0) D.actor).own D.step }
    requires place { place ≡ place_of_word D.opened.guest.shape (word_of D.opened.guest.shape D.actor D.step) }
    requires makes { Makes D.opened.guest.shape D.actor (seat_at (state_after D.opened.guest D.opened.number seat.old.me.0) D.actor).local D.step atomic }
    ensures table { seat.new.table_id ≡ seat.old.table_id }
    ensures made { IsMade D.opened D.actor D.step seat.old.me result seat.new.me }
{
    operate::<(), ListOf<Entry>, Opened, OneThread, Making<D>>(table, seat, place, atomic)
}

/// Makes a step of an actor of a guest by its one atomic operation, and answers the word that it found.
#[inline(always)]
pub(crate) fn make(
    table: &Shared<(), ListOf<Entry>, Opened, OneThread>,
    seat: &mut Seat<(), ListOf<Entry>>,
    place: usize,
    atomic: Atomic,
    actor: u32,
    step: &CoreStep,
) -> u64
    requires home { seat.old.table_id ≡ table.now.table_id }
    requires good { CanOpen table.now.key.guest }
    requires words { table.now.table_id.words ≡ word_count table.now.key.guest.shape }
    requires actor { actor < actor_count table.now.key.guest.shape }
    requires can { CanStep table.now.key.guest.shape actor step.now }
    requires meets { Meets table.now.key.guest.shape actor (seat_at (state_after table.now.key.guest table.now.key.number seat.old.me.0) actor).local (seat_at (state_after table.now.key.guest table.now.key.number seat.old.me.0) actor).own step.now }
    requires place { place ≡ place_of_word table.now.key.guest.shape (word_of table.now.key.guest.shape actor step.now) }
    requires makes { Makes table.now.key.guest.shape actor (seat_at (state_after table.now.key.guest table.now.key.number seat.old.me.0) actor).local step.now atomic }
    ensures table { seat.new.table_id ≡ seat.old.table_id }
    ensures made { IsMade table.now.key actor step.now seat.old.me result seat.new.me }
{
    make_as::<Brand>(table, seat, place, atomic, actor, step)
}
