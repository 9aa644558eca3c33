//! The rule of the words that the actors of a guest share, and what is done under it.
ghost use Rattle.std.specs.Prelude.{◌≡◌, ℕ, ◌<◌, [], ◌++◌, ◌∷◌, IsTrue, false};
ghost use Rattle.port_ops.specs.PortCore.IdealGuests.CanOpen.{CanOpen};
ghost use Rattle.port_ops.specs.PortCore.Actor.{actor_count};
ghost use Rattle.port_ops.specs.PortCore.Atomic.{Makes};
ghost use Rattle.port_ops.specs.PortCore.Condition.{Meets};
ghost use Rattle.port_ops.specs.PortCore.Known.{known_maps};
ghost use Rattle.port_ops.specs.PortCore.Place.{place_of_word, word_count};
ghost use Rattle.port_ops.specs.PortCore.Port.{keeps_tables};
ghost use Rattle.port_ops.specs.PortCore.Step.{CanStep, word_of};
ghost use Rattle.port_table.specs.declared.view.View.TheVariants.{Root, Out, Spent};
ghost use Rattle.port_table.specs.Rule.{IsShared, IsMade, IsReturned, local_of};
ghost use Rattle.port_table.specs.Slot.{held, has_taken};
ghost use Rattle.port_table.specs.View.{is_among, own_of, split_of, joined_of, noting, joining};

use crate::view::View;
use atomic_table::{Join, Seat, Shared, Split, TableRule};
use port_ops::{Atomic, CoreStep, Doing, ItsTables, Opened, Tells, operate};
use std::marker::{Brand, PhantomData};

/// What the seats know is the parts of one run, which leaves the words and the tables.
pub struct ManyThreads;

impl TableRule<Option<ItsTables>, View, Opened> for ManyThreads {
    ghost holds = { IsShared };

    ghost first = { λ _. Root [] [] };
}

/// The words of one guest, as its actors share them.
pub(crate) type Words = Shared<Option<ItsTables>, View, Opened, ManyThreads>;

/// A seat of one of its actors, or the root.
pub(crate) type Place = Seat<Option<ItsTables>, View>;

/// Tells that a step was made. No value of it is made.
pub(crate) struct Making<D> {
    marker: PhantomData<D>,
}

impl<D: Doing> Tells<Option<ItsTables>, View> for Making<D> {
    ghost told = { IsMade D.opened D.actor D.step };
}

/// Makes a step, of which the proof has picked the names.
#[inline(always)]
fn make_as<D: Doing>(
    table: &Words,
    seat: &mut Place,
    place: usize,
    atomic: Atomic,
    _actor: u32,
    _step: &CoreStep,
) -> u64
    requires home { seat.old.table_id ≡ table.now.table_id }
    requires opened { D.opened ≡ table.now.key }
    requires good { CanOpen D.opened.guest }
    requires words { table.now.table_id.words ≡ word_count D.opened.guest.shape }
    requires slots { table.now.table_id.slots ≡ 1 }
    requires actor { D.actor < actor_count D.opened.guest.shape }
    requires view { seat.old.me.0 ≡ Out D.actor (own_of seat.old.me.0) }
    requires held { seat.old.me.1 ≡ held (local_of D.opened D.actor (own_of seat.old.me.0)).turn (has_taken seat.old.me.1) (known_maps (own_of seat.old.me.0)) }
    requires can { CanStep D.opened.guest.shape D.actor D.step }
    requires meets { Meets D.opened.guest.shape D.actor (local_of D.opened D.actor (own_of seat.old.me.0)) (own_of seat.old.me.0) D.step }
    requires tables { IsTrue (keeps_tables (has_taken seat.old.me.1) D.step) }
    requires place { place ≡ place_of_word D.opened.guest.shape (word_of D.opened.guest.shape D.actor D.step) }
    requires makes { Makes D.opened.guest.shape D.actor (local_of D.opened D.actor (own_of seat.old.me.0)) D.step atomic }
    ensures table { seat.new.table_id ≡ seat.old.table_id }
    ensures made { IsMade D.opened D.actor D.step seat.old.me result seat.new.me }
{
    operate::<Option<ItsTables>, View, Opened, ManyThreads, Making<D>>(table, seat, place, atomic)
}

/// Makes a step of an actor of a guest by its one atomic operation, and answers the word that it found.
#[inline(always)]
pub(crate) fn make(
    table: &Words,
    seat: &mut Place,
    place: usize,
    atomic: Atomic,
    actor: u32,
    step: &CoreStep,
) -> u64
    requires home { seat.old.table_id ≡ table.now.table_id }
    requires good { CanOpen table.now.key.guest }
    requires words { table.now.table_id.words ≡ word_count table.now.key.guest.shape }
    requires slots { table.now.table_id.slots ≡ 1 }
    requires actor { actor < actor_count table.now.key.guest.shape }
    requires view { seat.old.me.0 ≡ Out actor (own_of seat.old.me.0) }
    requires held { seat.old.me.1 ≡ held (local_of table.now.key actor (own_of seat.old.me.0)).turn (has_taken seat.old.me.1) (known_maps (own_of seat.old.me.0)) }
    requires can { CanStep table.now.key.guest.shape actor step.now }
    requires meets { Meets table.now.key.guest.shape actor (local_of table.now.key actor (own_of seat.old.me.0)) (own_of seat.old.me.0) step.now }
    requires tables { IsTrue (keeps_tables (has_taken seat.old.me.1) step.now) }
    requires place { place ≡ place_of_word table.now.key.guest.shape (word_of table.now.key.guest.shape actor step.now) }
    requires makes { Makes table.now.key.guest.shape actor (local_of table.now.key actor (own_of seat.old.me.0)) step.now atomic }
    ensures table { seat.new.table_id ≡ seat.old.table_id }
    ensures made { IsMade table.now.key actor step.now seat.old.me result seat.new.me }
{
    make_as::<Brand>(table, seat, place, atomic, actor, step)
}

/// Tells that a seat gave back the slot. No value of it is made.
pub(crate) struct Returning;

impl Tells<Option<ItsTables>, View> for Returning {
    ghost told = { λ before found after. IsReturned before found after };
}

/// The seat of an actor that has the ITS gives back the slot, with whatever lies in it. The word that is loaded tells nothing.
pub(crate) fn give_back(table: &Words, seat: &mut Place, _actor: u32)
    requires home { seat.old.table_id ≡ table.now.table_id }
    requires good { CanOpen table.now.key.guest }
    requires words { 0 < table.now.table_id.words }
    requires actor { _actor < actor_count table.now.key.guest.shape }
    requires view { seat.old.me.0 ≡ Out _actor (own_of seat.old.me.0) }
    requires turn { IsTrue (local_of table.now.key _actor (own_of seat.old.me.0)).turn }
    ensures table { seat.new.table_id ≡ seat.old.table_id }
    ensures id { seat.new.id ≡ seat.old.id }
    ensures returned { IsReturned seat.old.me 0 seat.new.me }
{
    operate::<Option<ItsTables>, View, Opened, ManyThreads, Returning>(
        table,
        seat,
        0,
        Atomic::Load,
    );
}

/// The number of an actor, for proofs alone.
pub(crate) trait Naming {
    ghost actor: { ℕ };
}

impl Naming for Brand {
    ghost actor = { 0 };
}

/// Splits off an actor. No value of it is made.
pub(crate) struct Splitting<D> {
    marker: PhantomData<D>,
}

impl<D: Naming> Split<View> for Splitting<D> {
    ghost left = { λ view. noting D.actor view };

    ghost right = { λ view. Out D.actor [] };
}

fn split_as<D: Naming>(table: &Words, root: &mut Place, _actor: u32) -> Place
    requires home { root.old.table_id ≡ table.now.table_id }
    requires words { 0 < table.now.table_id.words }
    requires root { root.old.me.0 ≡ Root (split_of root.old.me.0) (joined_of root.old.me.0) }
    requires new { is_among D.actor (split_of root.old.me.0) ≡ false }
    ensures table { root.new.table_id ≡ root.old.table_id }
    ensures view { root.new.me.0 ≡ noting D.actor root.old.me.0 }
    ensures out { (result.table_id ≡ root.old.table_id) × (result.me ≡ (Out D.actor [], [])) }
{
    table.split_seat::<Splitting<D>>(root)
}

/// Splits off an actor that had no seat, and answers its seat.
pub(crate) fn split_off(table: &Words, root: &mut Place, actor: u32) -> Place
    requires home { root.old.table_id ≡ table.now.table_id }
    requires words { 0 < table.now.table_id.words }
    requires root { root.old.me.0 ≡ Root (split_of root.old.me.0) (joined_of root.old.me.0) }
    requires new { is_among actor (split_of root.old.me.0) ≡ false }
    ensures table { root.new.table_id ≡ root.old.table_id }
    ensures view { root.new.me.0 ≡ noting actor root.old.me.0 }
    ensures out { (result.table_id ≡ root.old.table_id) × (result.me ≡ (Out actor [], [])) }
{
    split_as::<Brand>(table, root, actor)
}

/// Joins an actor again. No value of it is made.
pub(crate) struct Joining;

impl Join<View> for Joining {
    ghost both = { λ view other. joining view other };

    ghost spent = { Spent };
}

/// Joins the seat of an actor, which holds nothing, into the root.
pub(crate) fn join_in(table: &Words, root: &mut Place, seat: Place, _actor: u32)
    requires home { root.old.table_id ≡ table.now.table_id }
    requires seat { seat.table_id ≡ table.now.table_id }
    requires words { 0 < table.now.table_id.words }
    requires root { root.old.me.0 ≡ Root (split_of root.old.me.0) (joined_of root.old.me.0) }
    requires view { seat.me.0 ≡ Out _actor (own_of seat.me.0) }
    requires none { seat.me.1 ≡ [] }
    ensures table { root.new.table_id ≡ root.old.table_id }
    ensures view { root.new.me.0 ≡ joining root.old.me.0 seat.me.0 }
{
    table.join_seat::<Joining>(root, seat);
}
