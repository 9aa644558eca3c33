//! A guest's words as it opens, an actor that is split off or joined again, and the words at the end.
ghost use Rattle.std.specs.Prelude.{◌≡◌, ◌<◌, false, IfOk};
ghost use Rattle.std.specs.Slots.{slots_items, slots_len, IsFull};
ghost use mathlib.Core.Option.{some};
ghost use lib.ListN.{get_elem?};
ghost use Rattle.port_ops.specs.PortCore.IdealGuests.CanOpen.{CanOpen};
ghost use Rattle.port_ops.specs.PortCore.Actor.{actor_count as count_of};
ghost use Rattle.port_table.specs.Ports.{words_told, root_told, seen_of};
ghost use Rattle.port_table.specs.Told.{opening_root, with_split, with_joined, opening_seen, IsDone, EndsRun};
ghost use Rattle.port_table.specs.View.{is_among};

use crate::guest::{GuestRoot, GuestTable};
use crate::port::TablePort;
use crate::rule::{give_back, join_in, split_off};
use atomic_table::{Closed, Table};
use port_ops::{
    GuestWords, IdealGuest, ItsTables, Opened, WordList, closed_words, guest_words,
    local_at_opening, opening_words,
};
use std::alloc::{AllocError, Global};

/// The words of a table, of which there are so many, and what lies in its slot; its memory is given back.
fn drain(
    alloc: Global,
    closed: Closed<Option<ItsTables>, Global>,
    count: usize,
) -> Result<(WordList, Option<ItsTables>), AllocError>
    requires words { IsFull closed.words }
    requires slots { IsFull closed.slots }
    requires count { slots_len closed.words ≡ count }
    requires one { slots_len closed.slots ≡ 1 }
    ensures { IfOk result (λ both. (both.0 ≡ slots_items closed.words) × (get_elem? (slots_items closed.slots) 0 ≡ some both.1)) }
{
    let mut closed = closed;
    let words = closed_words(alloc, &closed, count);
    let tables = closed.take(0);
    closed.free();
    Ok((words?, tables))
}

impl GuestTable {
    /// A guest as it opens, with the tables of its ITS, and its root. An error where memory is refused.
    pub(crate) fn start(
        alloc: Global,
        opened: Opened,
        tables: ItsTables,
    ) -> Result<(GuestTable, GuestRoot), AllocError>
        requires good { CanOpen opened.guest }
        requires tables { tables ≡ opened.guest.tables }
        ensures words { IfOk result (λ both. words_told both.0 ≡ record { home = (words_told both.0).home; guest = opened.guest; number = opened.number }) }
        ensures root { IfOk result (λ both. root_told both.1 ≡ opening_root (words_told both.0)) }
    {
        let words = opening_words(alloc, &opened.guest)?;
        let mut slots = Vec::new(alloc);
        slots.push(Some(tables))?;
        let Ok((table, seat)) = Table::new(alloc, words.as_slice(), slots, &opened) else {
            return Err(AllocError);
        };
        let Opened { number, guest } = opened;
        let IdealGuest { shape, cpus, .. } = guest;
        let words = GuestTable {
            shape,
            number,
            cpus,
            table,
        };
        Ok((words, GuestRoot { seat }))
    }

    /// The port of an actor, by its number, which had none before. It takes no memory.
    pub(crate) fn split<'a>(&'a self, root: &mut GuestRoot, actor: u32) -> TablePort<'a>
        requires home { (root_told root.old).home ≡ (words_told self.now).home }
        requires there { actor < count_of (words_told self.now).guest.shape }
        requires new { is_among actor (root_told root.old).split ≡ false }
        ensures port { seen_of result ≡ opening_seen (words_told self.now) actor }
        ensures root { root_told root.new ≡ with_split actor (root_told root.old) }
    {
        let table = &self.table;
        let shape = self.shape;
        let seat = split_off(&table.shared, &mut root.seat, actor);
        TablePort {
            table: &table.shared,
            seat,
            local: local_at_opening(actor, self.number, &shape, self.cpus.as_slice()),
            shape,
            guest: self.number,
            actor,
        }
    }

    /// The root keeps the steps of an actor, whose port is used no more. It takes no memory.
    pub(crate) fn join(&self, root: &mut GuestRoot, port: TablePort<'_>)
        requires root { (root_told root.old).home ≡ (words_told self.now).home }
        requires port { (seen_of port).home ≡ (words_told self.now).home }
        ensures { root_told root.new ≡ with_joined (seen_of port.entry).actor (seen_of port.entry).own (root_told root.old) }
    {
        let TablePort {
            table,
            mut seat,
            local,
            actor,
            ..
        } = port;
        if local.turn {
            give_back(table, &mut seat, actor);
        }
        let words = &self.table;
        join_in(&words.shared, &mut root.seat, seat, actor);
    }

    /// The words and the tables of the guest at its end, of which the root has all steps, while no actor has the ITS. An
    /// error where memory is refused.
    pub(crate) fn finish(self, root: GuestRoot, alloc: Global) -> Result<GuestWords, AllocError>
        requires home { (root_told root).home ≡ (words_told self).home }
        requires done { IsDone (words_told self) (root_told root) }
        ensures { IfOk result (λ left. EndsRun (words_told self) (root_told root) left) }
    {
        let GuestTable { shape, table, .. } = self;
        let GuestRoot { seat } = root;
        let count = table.word_count();
        let (words, tables) = drain(alloc, table.close_with(seat), count)?;
        match tables {
            Some(tables) => guest_words(alloc, words.as_slice(), tables, &shape),
            None => unreachable!(),
        }
    }
}
