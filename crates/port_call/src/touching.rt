//! Touches of an interrupt, at no interface.
ghost use Rattle.std.specs.Prelude.{◌≡◌, ◌<◌, IsTrue, IfOk, OnOk, IfErr};
ghost use Rattle.floor_core.specs.Calls.{Touching, CanTouch};
ghost use Rattle.floor_core.specs.Words.{IsWord, irq_of, has_interrupt};
ghost use Rattle.floor_core.specs.Core.{shape_of, owes_no_mark};
ghost use Rattle.port_call.specs.Rest.{IsAtEase};
ghost use Rattle.port_call.specs.Touch.{FindsHome, HasFoundHome, MissesHome, MayChange, MissesTouch, Touches, TouchesHome};
ghost use Rattle.port_call.specs.Touch.{Asks};

use crate::send::settle;
use floor_core::{CoreStep, Key, Port, Touching, WordId};
use std::sync::Wait;

/// Why a touch was not made: a vCPU has the interrupt at its interface, which was asked for it; or the interrupt's word
/// changed between the look and the touch.
#[derive(Clone, Copy, Debug, PartialEq, Eq, Hash)]
pub enum Missed {
    Held { holder: u32 },
    Changed { found: u64 },
}

/// The vCPU that holds an interrupt, by its word.
fn holder_in(word: u64) -> Option<u32>
    requires { IsWord word }
    ensures { result ≡ (irq_of word).holder }
{
    floor_core::irq_unpack(word).and_then(|irq| irq.holder)
}

/// Asks the vCPU that holds an interrupt for it: notes that an access waits for it, and kicks the vCPU.
fn ask<P: Port>(port: &mut P, key: Key, holder: u32)
    requires there { IsTrue (has_interrupt (shape_of (P.seen port.old)) key) }
    requires vcpu { holder < (shape_of (P.seen port.old)).vcpus }
    requires marks { IsTrue (owes_no_mark (P.seen port.old).local) }
    ensures { Asks (P.seen port.old) (P.seen port.new) key holder }
{
    port.step(CoreStep::Want { key });
    port.step(CoreStep::Kick { vcpu: holder });
}

/// Looks at an interrupt of the guest, and answers its word, where nobody holds it. Held exactly where a vCPU does: it is asked
/// for it then. The actor owes nothing. It takes no memory.
pub fn look_home<P: Port>(port: &mut P, key: Key) -> Result<u64, Missed>
    requires there { IsTrue (has_interrupt (shape_of (P.seen port.old)) key) }
    requires ease { IsAtEase (P.seen port.old).local }
    ensures home { IfOk result (λ word. FindsHome (P.seen port.old) (P.seen port.new) key word) }
    ensures held { IfErr result (λ missed. (kind : Touching) → MissesTouch (P.seen port.old) (P.seen port.new) key kind missed) }
{
    let word = port.step(CoreStep::Look {
        word: WordId::Irq(key),
    });
    match holder_in(word) {
        Some(holder) => {
            ask(port, key, holder);
            Err(Missed::Held { holder })
        }
        None => Ok(word),
    }
}

/// Touches an interrupt that the actor just looked at, with the word that it found without a holder. Held exactly where a vCPU
/// holds it by now: it is asked for it then. Changed exactly where its word is another one without a holder. The marks and kicks
/// that are owed for a touch are sent before it returns. It changes an LPI only while the actor knows all translation lines
/// to be shut. It takes no memory.
pub fn touch_seen<P: Port>(port: &mut P, key: Key, seen: u64, kind: Touching) -> Result<(), Missed>
    requires can { CanTouch (shape_of (P.seen port.old)) key kind }
    requires looked { HasFoundHome (P.seen port.old) key seen }
    requires lines { MayChange (P.seen port.old) kind }
    ensures touched { OnOk result (TouchesHome (P.seen port.old) (P.seen port.new) key kind seen) }
    ensures missed { IfErr result (λ missed. MissesHome (P.seen port.old) (P.seen port.new) key kind seen missed) }
{
    let found = port.step(CoreStep::Touch { key, seen, kind });
    if found == seen {
        settle(port);
        return Ok(());
    }
    match holder_in(found) {
        Some(holder) => {
            ask(port, key, holder);
            Err(Missed::Held { holder })
        }
        None => Err(Missed::Changed { found }),
    }
}

/// Tries to touch an interrupt of the guest, and answers the word that it found: it looks at it, and touches it where
/// nobody holds it, with the word that was looked at. Held exactly where the last of these two found that a vCPU holds it;
/// the vCPU is asked for it then. Changed exactly where the touch found a word without a holder that differs from the one
/// that was looked at. Nothing of the interrupt changed then, but that an access waits for it after Held. The marks and kicks
/// that are owed for a touch are sent before it returns. The actor owes nothing, and has nothing at its interface, and it
/// changes an LPI only while it knows all translation lines to be shut. It takes no memory.
pub fn try_touch<P: Port>(port: &mut P, key: Key, kind: Touching) -> Result<u64, Missed>
    requires can { CanTouch (shape_of (P.seen port.old)) key kind }
    requires ease { IsAtEase (P.seen port.old).local }
    requires lines { MayChange (P.seen port.old) kind }
    ensures touched { IfOk result (λ found. Touches (P.seen port.old) (P.seen port.new) key kind found) }
    ensures missed { IfErr result (λ missed. MissesTouch (P.seen port.old) (P.seen port.new) key kind missed) }
{
    let seen = look_home(port, key)?;
    touch_seen(port, key, seen, kind)?;
    Ok(seen)
}

/// Touches an interrupt of the guest, and answers the word that it found: it tries until nobody holds it, and asks who does
/// for it. The actor owes nothing, and has nothing at its interface, and it changes an LPI only while it knows all
/// translation lines to be shut.
pub fn touch<P: Port, R: Wait>(rt: &R, port: &mut P, key: Key, kind: Touching) -> u64
    requires can { CanTouch (shape_of (P.seen port.old)) key kind }
    requires ease { IsAtEase (P.seen port.old).local }
    requires lines { MayChange (P.seen port.old) kind }
    ensures { Touches (P.seen port.old) (P.seen port.new) key kind result }
{
    for _ in rt.forever() {
        if let Ok(found) = try_touch(port, key, kind) {
            return found;
        }
    }
    unreachable!()
}
