//! The ports of a scenario's actors: they are split off from the root, used by any threads, and joined again.
ghost use Rattle.std.specs.Prelude.{◌≡◌, ◌≤◌, false, All, IfOk, length, map};
ghost use Rattle.port_ops.specs.Calls.{IsGoodGuest};
ghost use Rattle.port_ops.specs.PortCore.IdealGuests.Opening.{opening as opening_guest};
ghost use Rattle.port_ops.specs.PortCore.Actor.{guest_of as guest_in};
ghost use Rattle.port_table.specs.All.{told_words, told_root};
ghost use Rattle.port_table.specs.Ports.{seen_of};
ghost use Rattle.port_table.specs.Told.{words_at, number_in, opening_seen, IsOpening, AreRoots, HasActor, HadNone, PortIsOf, splitting, joining_in, AllDone, EndsRuns};

use crate::guest::GuestTable;
use crate::port::TablePort;
use crate::shared::{RootSeat, SharedWords};
use port_ops::{EndWords, ItsTables, Opened, guest_of, number_of};
use scn_base::{Actor, ListOf, Scenario};
use std::alloc::{AllocError, Global};

/// The words of a scenario's guests as they open, and the root of all. The guests are good: each, and at most 4 of them. An
/// error where memory is refused.
pub fn start(alloc: Global, scenario: &Scenario) -> Result<(SharedWords, RootSeat), AllocError>
    requires good { All IsGoodGuest scenario.now.guests }
    requires few { length scenario.now.guests ≤ 4 }
    ensures opens { IfOk result (λ both. IsOpening (map opening_guest scenario.now.guests) (told_words both.0) (told_root both.1)) }
    ensures roots { IfOk result (λ both. AreRoots (told_words both.0) (told_root both.1)) }
{
    let specs = scenario.guests.as_slice();
    let mut guests = Vec::new(alloc);
    let mut roots = Vec::new(alloc);
    for number in 0..specs.len() {
        let opened = Opened::of(alloc, number as u32, &specs[number])?;
        let Ok(tables) = ItsTables::of(alloc) else {
            return Err(AllocError);
        };
        let (table, root) = GuestTable::start(alloc, opened, tables)?;
        guests.push(table)?;
        roots.push(root)?;
    }
    Ok((SharedWords { guests }, RootSeat { guests: roots }))
}

/// The port of an actor that the scenario has and that had none. It takes no memory.
pub fn split<'a>(words: &'a SharedWords, root: &mut RootSeat, actor: Actor) -> TablePort<'a>
    requires roots { AreRoots (told_words words.now) (told_root root.old) }
    requires there { HasActor (told_words words.now) actor }
    requires new { HadNone (told_words words.now) (told_root root.old) actor }
    ensures port { seen_of result ≡ opening_seen (words_at (told_words words.now) (guest_in actor)) (number_in (told_words words.now) actor) }
    ensures of { PortIsOf (told_words words.now) (seen_of result) }
    ensures root { told_root root.new ≡ splitting (told_words words.now) actor (told_root root.old) }
    ensures roots { AreRoots (told_words words.now) (told_root root.new) }
{
    let guest = guest_of(actor) as usize;
    let table = &words.guests[guest];
    let number = number_of(actor, &table.shape);
    table.split(&mut root.guests[guest], number)
}

/// The root keeps the steps of an actor, whose port is used no more. It takes no memory.
pub fn join<'a>(words: &'a SharedWords, root: &mut RootSeat, port: TablePort<'a>)
    requires roots { AreRoots (told_words words.now) (told_root root.old) }
    requires port { PortIsOf (told_words words.now) (seen_of port) }
    ensures root { told_root root.new ≡ joining_in (seen_of port.entry) (told_root root.old) }
    ensures roots { AreRoots (told_words words.now) (told_root root.new) }
{
    let guest = port.guest as usize;
    let table = &words.guests[guest];
    table.join(&mut root.guests[guest], port);
}

/// The words and the tables of each guest at the end, when each port that was split off was joined again, and no actor has an
/// ITS. An error where memory is refused.
pub fn finish(alloc: Global, words: SharedWords, root: RootSeat) -> Result<EndWords, AllocError>
    requires roots { AreRoots (told_words words) (told_root root) }
    requires done { AllDone (told_words words) (told_root root) }
    ensures { IfOk result (λ ends. EndsRuns (told_words words) (told_root root) ends) }
{
    let SharedWords { guests } = words;
    let RootSeat { guests: roots } = root;
    let mut ends = ListOf::new(alloc);
    let mut roots = roots.into_iter();
    for table in guests {
        match roots.next() {
            Some(root) => ends.push(table.finish(root, alloc)?)?,
            None => unreachable!(),
        }
    }
    Ok(ends)
}
