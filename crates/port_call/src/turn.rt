//! An actor takes the ITS, and gives it back.
ghost use Rattle.std.specs.Prelude.{◌≡◌, ◌&&◌, IsTrue, is_none, false};
ghost use Rattle.floor_core.specs.Registers.{is_queue_word, queue_of};
ghost use Rattle.port_call.specs.Turn.{TakesTurn, TriesTurn, GivesTurn};

use floor_core::{CoreStep, Port, WordId};
use std::sync::Wait;

/// Whether nobody has the ITS, by its word.
fn is_free(word: u64) -> bool
    ensures { result ≡ (is_queue_word word && is_none (queue_of word).turn) }
{
    floor_core::queue_unpack(word).is_some_and(|queue| queue.turn.is_none())
}

/// Looks at the ITS's word, and tries to take the ITS where nobody has it. Whether it took it.
fn try_turn<P: Port>(port: &mut P) -> bool
    ensures { TriesTurn (P.seen port.old) (P.seen port.new) result }
{
    let seen = port.step(CoreStep::Look {
        word: WordId::Queue,
    });
    if !is_free(seen) {
        return false;
    }
    port.step(CoreStep::TurnTake { seen }) == seen
}

/// Takes the ITS: it looks at the ITS's word until nobody has it, and tries then, again and again.
pub fn take_turn<P: Port, R: Wait>(rt: &R, port: &mut P)
    ensures { TakesTurn (P.seen port.old) (P.seen port.new) }
{
    for _ in rt.forever() {
        if try_turn(port) {
            return;
        }
    }
    unreachable!()
}

/// Gives the ITS back. The actor has it, and has put back its tables.
pub fn give_turn<P: Port>(port: &mut P)
    requires turn { IsTrue (P.seen port.old).local.turn }
    requires home { (P.seen port.old).taken ≡ false }
    ensures { GivesTurn (P.seen port.old) (P.seen port.new) }
{
    port.step(CoreStep::TurnRelease);
}
