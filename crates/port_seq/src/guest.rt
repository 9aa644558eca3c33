//! A guest that is run in one thread: its words, what its actors have for themselves, and the tables of its ITS.
ghost use Rattle.std.specs.Prelude.{◌≡◌, ℕ, ◌<◌, IfOk};
ghost use Rattle.std.specs.Option.{ForSome};
ghost use Rattle.port_ops.specs.PortCore.IdealGuests.CanOpen.{CanOpen};
ghost use Rattle.port_ops.specs.PortCore.Actor.{actor_count as count_of};
ghost use Rattle.port_ops.specs.PortCore.Place.{word_count as count_of_words};
ghost use Rattle.port_ops.specs.PortCore.Run.{IsRun, IsSound, opening};
ghost use Rattle.port_ops.specs.Props.{can_open_prop};
ghost use Rattle.port_seq.specs.Home.{maps_here, taker_of};
ghost use Rattle.port_seq.specs.Told.{AreMade};
ghost use Rattle.port_ops.specs.World.{state_after, locals_in, HasTurn};

use crate::drain::drain;
use crate::its_home::ItsHome;
use crate::rule::{OneThread, make};
use atomic_table::{Seat, Table};
use port_ops::{
    CoreStep, Entry, GuestWords, IdealGuest, ItsTables, Local, Opened, guest_words, opening_words,
    place_of_word,
};
use scn_base::{GuestShape, ListOf};
use std::alloc::{AllocError, Global};
use std::mem;

/// The words of one guest, what each of its actors has for itself, and the tables of its ITS. One actor is told at a
/// time, and makes its steps through it.
#[derive(Drop)]
pub struct GuestPort {
    pub(crate) shape: GuestShape,
    pub(crate) table: Table<(), ListOf<Entry>, Opened, OneThread, Global>,
    pub(crate) seat: Seat<(), ListOf<Entry>>,
    pub(crate) locals: Vec<Local>,
    pub(crate) its: ItsHome,
    pub(crate) actor: u32,
    ghost good: { CanOpen table.shared.key.guest } by { can_open_prop table.shared.key.guest },
    ghost there: { actor < count_of table.shared.key.guest.shape },
    ghost same: { shape ≡ table.shared.key.guest.shape },
    ghost home: { seat.table_id ≡ table.shared.table_id },
    ghost words: { table.shared.table_id.words ≡ count_of_words table.shared.key.guest.shape },
    ghost slots: { table.shared.table_id.slots ≡ 0 },
    ghost run: { ∥ IsRun table.shared.key.guest.shape (opening table.shared.key.guest table.shared.key.number) seat.me.0 ∥₁ },
    ghost sound: { ∥ IsSound table.shared.key.guest.shape (state_after table.shared.key.guest table.shared.key.number seat.me.0) ∥₁ },
    ghost made: { AreMade table.shared.key.guest table.shared.key.number seat.me.0 },
    ghost own: { locals.items ≡ locals_in (state_after table.shared.key.guest table.shared.key.number seat.me.0) },
    ghost maps: { ForSome (maps_here its) (λ maps. maps ≡ (state_after table.shared.key.guest table.shared.key.number seat.me.0).maps) },
    ghost turn: { ForSome (taker_of its) (HasTurn table.shared.key.guest.shape (state_after table.shared.key.guest table.shared.key.number seat.me.0)) },
}

impl GuestPort {
    ghost use Rattle.std.specs.Prelude.{false, None, Some, IsTrue};
    ghost use Rattle.port_ops.specs.PortCore.Known.{known_maps};
    ghost use Rattle.port_ops.specs.PortCore.Port.{CanMake};
    ghost use Rattle.port_ops.specs.PortCore.Run.{Takes};
    ghost use Rattle.port_seq.specs.Told.{seen_of, state_of, entry_of, with_step, opening_told, words_of_end};
    ghost use Rattle.port_seq.specs.Ports.{told};

    /// A guest as it opens: nothing was done, and its first actor, vCPU 0, is told. An error where memory is refused.
    pub(crate) fn start(alloc: Global, opened: Opened) -> Result<GuestPort, AllocError>
        requires { CanOpen opened.guest }
        ensures { IfOk result (λ port. told port ≡ opening_told (told port).home opened.guest opened.number) }
    {
        let words = opening_words(alloc, &opened.guest)?;
        let locals = opened.locals(alloc)?;
        let (table, seat) = Table::of_words(alloc, words.as_slice(), &opened)?;
        let Opened { guest, .. } = opened;
        let IdealGuest { shape, tables, .. } = guest;
        Ok(GuestPort {
            shape,
            table,
            seat,
            locals,
            its: ItsHome::Here(tables),
            actor: 0,
        })
    }

    /// Tells another actor of the guest, by its number, and changes nothing else.
    pub fn set_actor(&mut self, actor: u32)
        requires { actor < count_of (told self.old).guest.shape }
        ensures { told self.new ≡ record (told self.old) { actor = actor } }
    {
        self.actor = actor;
    }

    /// What the actor that is told has for itself.
    pub(crate) fn own_local(&self) -> &Local
        ensures { result.now ≡ (seen_of (told self.now)).local }
    {
        &self.locals[self.actor as usize]
    }

    /// Makes a step of the actor that is told, and answers the word that it found.
    #[inline(always)]
    pub(crate) fn make(&mut self, step: CoreStep) -> u64
        requires { CanMake (seen_of (told self.old)) step }
        ensures run { IsRun (told self.old).guest.shape (opening (told self.old).guest (told self.old).number) (told self.old).world }
        ensures takes { Takes (told self.old).guest.shape (state_of (told self.old)) (entry_of (told self.old) step result) }
        ensures told { told self.new ≡ with_step (told self.old) step result }
    {
        let shape = self.shape;
        let actor = self.actor;
        let place = place_of_word(step.word(actor, &shape), &shape);
        let atomic = self.locals[actor as usize].operation(&step, actor, &shape);
        let found = make(
            &self.table.shared,
            &mut self.seat,
            place,
            atomic,
            actor,
            &step,
        );
        self.locals[actor as usize].advance(&step, found, actor, &shape);
        found
    }

    /// The actor that is told takes the tables of the ITS, which it has.
    pub(crate) fn take(&mut self) -> ItsTables
        requires turn { IsTrue (seen_of (told self.old)).local.turn }
        requires home { (seen_of (told self.old)).taken ≡ false }
        ensures value { result ≡ known_maps (seen_of (told self.old)).own }
        ensures told { told self.new ≡ record (told self.old) { taken = Some (told self.old).actor } }
    {
        match mem::replace(&mut self.its, ItsHome::TakenBy(self.actor)) {
            ItsHome::Here(tables) => tables,
            ItsHome::TakenBy(_) => unreachable!(),
        }
    }

    /// It gives them back.
    pub(crate) fn put(&mut self, tables: ItsTables)
        requires taken { IsTrue (seen_of (told self.old)).taken }
        requires value { tables ≡ known_maps (seen_of (told self.old)).own }
        ensures { told self.new ≡ record (told self.old) { taken = None } }
    {
        self.its = ItsHome::Here(tables);
    }

    /// Its words and tables at its end, while no actor has the tables. An error where memory is refused.
    pub(crate) fn finish(self, alloc: Global) -> Result<GuestWords, AllocError>
        requires { (told self).taken ≡ None }
        ensures { IfOk result (λ words. words ≡ words_of_end (told self)) }
    {
        let GuestPort {
            shape,
            table,
            seat,
            its,
            ..
        } = self;
        let count = table.word_count();
        let words = drain(alloc, table.close_with(seat), count)?;
        match its {
            ItsHome::Here(tables) => { guest_words(alloc, words.as_slice(), tables, &shape) }
            ItsHome::TakenBy(_) => unreachable!(),
        }
    }
}
