//! Runs a scenario of guests, devices and interrupts, or of physical interrupts that are linked to virtual ones, and writes what the guests read; or saves a
//! run in its middle, and goes on with one that was saved; or judges a record of what a guest's actors did.
#![tactic(auto)]

ghost use Rattle.std.specs.Prelude.{◌≡◌, ◌≢◌, ◌<◌, ◌⊎◌, ℕ, Some, None, Contains, IfOk, IfErr, IfSome};
ghost use Rattle.gic_top.specs.GicIo.Faults.{HasRisen};
ghost use Rattle.gic_top.specs.Command.{command_in};
ghost use Rattle.gic_top.specs.Tool.{statuses, input_reading, Showed, most_runs, IsOutcome, IsRefusal, HasItsAnswer};

mod explain;
mod noted;

use crate::explain::explain;
use crate::noted::Noted;
use gic_top::{
    Command, Gate, NOTHING_SHOWN, OpenGate, SeqWatch, Sink, Source, StdSink, StdSource, ThrWatch,
    refuse_words, run_tool,
};
use std::alloc::{AllocError, Global};
use std::env;
use std::io::ErrorKind;
use std::process::ExitCode;
use std::rt::Env;
use std::sync::Wait;
use std::thread::Threads;

/// The words after the program's name; an error where memory for them is refused. A word that is no text leaves
/// none of them, so that no command is taken for another.
fn words(rt: &(impl Env + Alloc<A = Global>)) -> Result<Vec<String>, AllocError> {
    match env::args(rt) {
        Ok(words) => words.skip(1).collect(rt.alloc()),
        Err(error) if error.kind() == ErrorKind::OutOfMemory => Err(AllocError),
        Err(_) => Ok(Vec::new(rt.alloc())),
    }
}

/// Hands the words to the tool, and answers its status. Where memory for the words was refused, that is
/// written, and nothing is read or run.
fn status<R: Threads + Wait + Sync, S: Source, K: Sink, G: Gate + Sync, W: SeqWatch + ThrWatch>(
    rt: &R,
    alloc: Global,
    words: Result<Vec<String>, AllocError>,
    source: &mut S,
    sink: &mut K,
    gate: &G,
    watch: &mut W,
) -> u8
    requires room { W.scheduled watch.old < most_runs }
    requires threads_room { W.threaded watch.old < most_runs }
    ensures closed { Contains statuses result }
    ensures outcome { IfOk words (λ words. IsOutcome (command_in words.items) (S.left source.old) (S.left source.new) (S.faults source.old) (S.faults source.new)
        (K.taken sink.old) (K.taken sink.new) (K.faults sink.old) (K.faults sink.new)
        (Showed W.scheduled W.last_schedule W.threaded W.last_threads watch.old watch.new) result) }
    ensures unread_unless_asked { IfOk words (λ words. input_reading (command_in words.items) ≡ None → source.new ≡ source.old) }
    ensures complete { IfOk words (λ words. IfSome (input_reading (command_in words.items)) (λ reading.
        ¬ HasRisen (S.faults source.old) (S.faults source.new)
        → ¬ HasRisen (K.faults sink.old) (K.faults sink.new)
        → IfSome (S.left source.old) (λ bytes. HasItsAnswer reading bytes result))) }
    ensures soak_complete { IfOk words (λ words. (number steps : ℕ) → command_in words.items ≡ Some (Command.Soak number steps)
        → ¬ HasRisen (K.faults sink.old) (K.faults sink.new)
        → (result ≡ 0) ⊎ (result ≡ 9)) }

    // Where there were no words.
    ensures refused { IfErr words (λ _. IsRefusal (K.taken sink.old) (K.taken sink.new) (K.faults sink.old) (K.faults sink.new) result) }
    ensures unread { IfErr words (λ _. source.new ≡ source.old) }
    ensures unwatched { IfErr words (λ _. watch.new ≡ watch.old) }
{
    match words {
        Ok(words) => run_tool(rt, alloc, words.as_slice(), source, sink, gate, watch),
        Err(_) => refuse_words(sink),
    }
}

fn main(rt: HostRuntime) -> ExitCode {
    let mut source = Noted::new(rt.alloc(), StdSource::new(&rt));
    let mut sink = StdSink::new(&rt);
    let mut shown = NOTHING_SHOWN;
    let words = words(&rt);
    let command = words
        .as_ref()
        .ok()
        .and_then(|words| Command::of(words.as_slice()));
    let status = status(
        &rt,
        rt.alloc(),
        words,
        &mut source,
        &mut sink,
        &OpenGate,
        &mut shown,
    );
    // The status is what it is, whether or not this can be told.
    let _ = explain(&rt, rt.alloc(), command, status, source.bytes());
    ExitCode::from(status)
}
