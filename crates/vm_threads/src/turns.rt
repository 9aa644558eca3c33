//! Who takes turns: a vCPU, or a device.
ghost use Rattle.std.specs.Prelude.{◌≡◌, OnOk};
ghost use Rattle.vm_threads.specs.Rest.{Rests};

use crate::beds::Beds;
use port_seq::CorePort as Port;
use std::sync::Wait;
use std::thread::{Threads, join_mut};

/// A vCPU or a device of the first guest, which does what it can over its port while it has its turn. `S` is what it shares with the others, and `E` why it
/// fails.
pub trait TakesTurns<S, E> {
    /// One turn, over the port of its own actor.
    fn turn<P: Port, R: Wait>(&mut self, rt: &R, port: &mut P, shared: &S) -> Result<(), E>
        requires { (P.seen port.old).number ≡ 0 }
        ensures { OnOk result (Rests (P.seen port.old) (P.seen port.new)) };

    /// Whether it has done all that it has to do.
    fn is_through(&self) -> bool;
}

/// The thread of an actor: one turn after the other, asleep between them, until it is through or all are to stop. Where a turn fails, all are.
#[tactic(auto, using(crate::proofs::SameLemmas::same_twice, crate::proofs::SameLemmas::same_here))]
pub fn take_turns<P: Port, S, E: Drop, T: TakesTurns<S, E>, R: Wait, const ACTORS: usize>(
    rt: &R,
    port: &mut P,
    who: &mut T,
    shared: &S,
    beds: &Beds<ACTORS>,
) -> Result<(), E>
    requires { (P.seen port.old).number ≡ 0 }
    ensures { OnOk result (Rests (P.seen port.old) (P.seen port.new)) }
{
    for _ in rt.forever() {
        if let Err(fault) = who.turn(rt, port, shared) {
            beds.stop();
            return Err(fault);
        }
        if who.is_through() || beds.is_stopped() {
            return Ok(());
        }
        beds.sleep(rt, port.actor());
    }
    unreachable!()
}

/// The threads of two actors. Where both fail, the first one's error.
pub fn take_turns_of_two<
    P: Port + Send,
    Q: Port + Send,
    S: Sync,
    E: Drop + Send,
    T: TakesTurns<S, E> + Send,
    U: TakesTurns<S, E> + Send,
    R: Threads + Wait + Sync,
    const ACTORS: usize,
>(
    rt: &R,
    one: &mut P,
    two: &mut Q,
    who: &mut T,
    other: &mut U,
    shared: &S,
    beds: &Beds<ACTORS>,
) -> Result<(), E>
    requires one { (P.seen one.old).number ≡ 0 }
    requires two { (Q.seen two.old).number ≡ 0 }
    ensures one { OnOk result (Rests (P.seen one.old) (P.seen one.new)) }
    ensures two { OnOk result (Rests (Q.seen two.old) (Q.seen two.new)) }
{
    let (first_went, second_went) = join_mut(
        rt,
        &mut || -> Result<(), E>
            requires { (P.seen one.now).number ≡ 0 }
            ensures { OnOk result (Rests (P.seen one.entry.now) (P.seen one.exit.now)) }
        { take_turns(rt, one, who, shared, beds) },
        &mut || -> Result<(), E>
            requires { (Q.seen two.now).number ≡ 0 }
            ensures { OnOk result (Rests (Q.seen two.entry.now) (Q.seen two.exit.now)) }
        { take_turns(rt, two, other, shared, beds) },
    );
    first_went?;
    second_went
}
