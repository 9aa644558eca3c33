//! The command queue.
ghost use Rattle.std.specs.Prelude.{◌≡◌, IsTrue, None, Some, true, false};
ghost use Rattle.port_call.specs.Registers.{queue_bytes as bytes_of, advanced, fault_number, IsValid, Maps};
ghost use Rattle.port_call.specs.Calls.{IsOffset};
ghost use Rattle.port_call.specs.ItsCmd.Command.{decoded};
ghost use Rattle.port_call.specs.Core.{CommandDone, has_all_shut, known_maps, shape_of};
ghost use Rattle.port_call.specs.Rest.{IsAtEase};
ghost use Rattle.its_exec.specs.Queue.{HoldsNext, HasBad, MakesStep, StallsAt, IsReady, HasIts, MovesQueue, LooksAtFault, TellsFault, EndsAt, IsOverWith, TakesCommand};
ghost use Rattle.its_exec.specs.Run.{RunsQueue};
ghost use Rattle.its_exec.specs.Plan.{IsFresh};
ghost use Rattle.port_call.specs.Words.{GuestShape};
ghost use Rattle.its_exec.specs.Known.{takes_next};

use crate::command::do_command;
use crate::fetch::{Fetched, fetch};
use crate::known::{KnownQueue, look_at_queue};
use port_call::{
    CoreStep, GuestShape, ItsTables, PlainWord, Port, UNKNOWN_NUMBER, advance, place_of_plain,
    put_plain, queue_bytes, queue_decode as decode,
};
use std::sync::Wait;

/// How a queue ends.
#[derive(Clone, Copy, Debug, PartialEq, Eq, Hash)]
pub enum QueueEnd {
    /// No further command is taken, and the queue is not stalled.
    Empty,
    /// The queue is stalled at the command at this offset, which has the fault of this number: as this run found it, or as it
    /// was stored where the queue was stalled before.
    Stalled { offset: u32, fault: u8 },
}

/// A good command is over: the queue goes on to the next one.
fn finish<P: Port>(port: &mut P, queue: &mut KnownQueue, fetched: &Fetched)
    requires taken { IsTrue (P.seen port.old).taken }
    requires ease { IsAtEase (P.seen port.old).local }
    requires next { HoldsNext (P.seen port.old) queue.old fetched.now }
    requires good { fault_number (shape_of (P.seen port.old)) (known_maps (P.seen port.old).own) (decoded fetched.now.words) ≡ None }
    ensures queue { queue.new ≡ record queue.old { offset = advanced queue.old.offset (bytes_of queue.old.cbaser) } }
    ensures place { IsOffset queue.new.offset }
    ensures ends { MakesStep (P.seen port.old) (P.seen port.new) (CommandDone queue.new.offset false (Some fetched.now.words)) }
{
    let offset = advance(queue.offset, queue_bytes(queue.cbaser));
    port.step(CoreStep::CommandDone {
        offset,
        stalled: false,
        done: Some(fetched.words),
    });
    queue.offset = offset;
}

/// A bad command: its fault is stored, and the queue stalls at it.
fn stall<P: Port, R: Wait>(rt: &R, port: &mut P, queue: &mut KnownQueue, fault: u8)
    requires taken { IsTrue (P.seen port.old).taken }
    requires ease { IsAtEase (P.seen port.old).local }
    requires runs { queue.old.stalled ≡ false }
    requires bad { HasBad (P.seen port.old) queue.old fault }
    ensures queue { queue.new ≡ record queue.old { stalled = true } }
    ensures stalls { StallsAt (P.seen port.old) (P.seen port.new) queue.old.offset fault }
{
    put_plain(rt, port, PlainWord::Fault, u64::from(fault));
    port.step(CoreStep::CommandDone {
        offset: queue.offset,
        stalled: true,
        done: None,
    });
    queue.stalled = true;
}

/// Takes the next command, and does it, or stalls where it has a fault: the number of that.
fn take_command<P: Port, R: Wait>(
    rt: &R,
    port: &mut P,
    tables: &mut ItsTables,
    shape: &GuestShape,
    queue: &mut KnownQueue,
) -> Option<u8>
    requires ready { IsReady (P.seen port.old) shape.now tables.old queue.old }
    requires takes { takes_next queue.old ≡ true }
    ensures ready { IsReady (P.seen port.new) shape.now tables.new queue.new }
    ensures takes { TakesCommand (P.seen port.old) (P.seen port.new) result }
{
    let fetched = fetch(port, queue);
    let Ok(command) = decode(fetched.words) else {
        stall(rt, port, queue, UNKNOWN_NUMBER);
        return Some(UNKNOWN_NUMBER);
    };
    if let Some(fault) = tables.fault_in(&command, shape) {
        let number = fault.number();
        stall(rt, port, queue, number);
        return Some(number);
    }
    do_command(rt, port, tables, shape, &fetched, &command);
    finish(port, queue, &fetched);
    None
}

/// The number of the fault that is stored, by a look.
fn stored_fault<P: Port>(port: &mut P) -> u8
    ensures { LooksAtFault (P.seen port.old) (P.seen port.new) result }
{
    let index = place_of_plain(PlainWord::Fault, &port.shape()) as u32;
    (port.step(CoreStep::RamLook { index }) % 256) as u8
}

/// The fault of a queue that is stalled: that of the last command that was taken, if it had one, and else the one that is
/// stored.
fn fault_of_stall<P: Port>(port: &mut P, fault: Option<u8>) -> u8
    ensures { TellsFault (P.seen port.old) (P.seen port.new) fault result }
{
    match fault {
        Some(fault) => fault,
        None => stored_fault(port),
    }
}

/// How the queue ended, where the last command that was taken had this fault, or none.
fn end_of<P: Port>(port: &mut P, queue: &KnownQueue, fault: Option<u8>) -> QueueEnd
    ensures { EndsAt (P.seen port.old) (P.seen port.new) queue.now fault result }
{
    if !queue.stalled {
        return QueueEnd::Empty;
    }
    QueueEnd::Stalled {
        offset: queue.offset,
        fault: fault_of_stall(port, fault),
    }
}

/// Moves the queue to an offset, a multiple of 32 below 1048576, and ends its stall, as a write of GITS_CBASER does, or one of
/// GITS_CWRITER with Retry. The actor has the ITS, knows all translation lines to be shut, and owes nothing.
pub fn move_queue<P: Port>(port: &mut P, queue: &mut KnownQueue, offset: u32)
    requires place { IsOffset offset }
    requires turn { IsTrue (P.seen port.old).local.turn }
    requires ease { IsAtEase (P.seen port.old).local }
    requires lines { IsTrue (has_all_shut (P.seen port.old).local) }
    ensures queue { queue.new ≡ record queue.old { offset = offset; stalled = false } }
    ensures moves { MovesQueue (P.seen port.old) (P.seen port.new) offset }
    ensures ready { (shape : GuestShape) (tables : Maps) → IsReady (P.seen port.old) shape tables queue.old → IsReady (P.seen port.new) shape tables queue.new }
{
    port.step(CoreStep::CommandDone {
        offset,
        stalled: false,
        done: None,
    });
    queue.offset = offset;
    queue.stalled = false;
}

/// Takes commands, one after the other, until no further one is taken, from a queue that is known. The actor has the ITS
/// with these tables, knows all translation lines to be shut, owes nothing, and is where a command begins.
pub fn run_commands<P: Port, R: Wait>(
    rt: &R,
    port: &mut P,
    tables: &mut ItsTables,
    shape: &GuestShape,
    from: KnownQueue,
) -> QueueEnd
    requires ready { IsReady (P.seen port.old) shape.now tables.old from }
    ensures ends { IsOverWith (P.seen port.old) (P.seen port.new) shape.now tables.new result }
    ensures has { HasIts (P.seen port.new) tables.new }
{
    let mut queue = from;
    let mut fault = None;
    for _ in rt.forever() {
        if !queue.takes_command() {
            return end_of(port, &queue, fault);
        }
        fault = take_command(rt, port, tables, shape, &mut queue);
    }
    unreachable!()
}

/// Looks at the queue of the ITS, and takes commands until no further one is taken. `Empty` comes exactly where the queue is
/// not stalled then, `Stalled` exactly where it is. The actor has the ITS with these tables, knows all translation lines to
/// be shut, and owes nothing.
pub fn run_queue<P: Port, R: Wait>(
    rt: &R,
    port: &mut P,
    tables: &mut ItsTables,
    shape: &GuestShape,
) -> QueueEnd
    requires shape { shape.now ≡ shape_of (P.seen port.old) }
    requires taken { IsTrue (P.seen port.old).taken }
    requires ease { IsAtEase (P.seen port.old).local }
    requires lines { IsTrue (has_all_shut (P.seen port.old).local) }
    requires known { tables.old ≡ known_maps (P.seen port.old).own }
    requires valid { IsValid shape.now tables.old }
    requires fresh { IsFresh (P.seen port.old) }
    ensures ends { RunsQueue (P.seen port.old) (P.seen port.new) shape.now tables.new result }
    ensures has { HasIts (P.seen port.new) tables.new }
{
    let queue = look_at_queue(port);
    run_commands(rt, port, tables, shape, queue)
}
