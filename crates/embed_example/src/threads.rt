//! The machine on threads: each vCPU and the device with a port of its own over words that all share.
ghost use Rattle.std.specs.Prelude.{◌≡◌, IfOk, OnOk, map};
ghost use Rattle.std.specs.Thread.{IsSync};
ghost use Rattle.port_table.specs.All.{told_words, told_root};
ghost use Rattle.port_table.specs.Told.{AreRoots, AllDone, opening_root};
ghost use Rattle.embed_example.specs.Alone.{IsAlone};
ghost use Rattle.vm_threads.specs.Rest.{Rests};

use crate::device::Device;
use crate::fault::Fault;
use crate::machine::SHAPE;
use crate::signals::Signals;
use crate::vcpu::Vcpu;
use port_rest::one_guest;
use port_seq::{Actor, CorePort as Port, EndWords, Mode};
use port_table::{RootSeat, SharedWords, finish, join, split, start};
use std::alloc::{AllocError, Global};
use std::sync::Wait;
use std::thread::{Threads, join_mut};
use vm_threads::{Waking, take_turns, take_turns_of_two};

/// The threads of both vCPUs and of the device.
fn run_three<P: Port + Send, R: Threads + Wait + Sync>(
    rt: &R,
    one: &mut P,
    two: &mut P,
    three: &mut P,
    first: &mut Vcpu,
    second: &mut Vcpu,
    signals: &Signals,
) -> Result<(), Fault>
    requires one { (P.seen one.old).number ≡ 0 }
    requires two { (P.seen two.old).number ≡ 0 }
    requires three { (P.seen three.old).number ≡ 0 }
    ensures one { OnOk result (Rests (P.seen one.old) (P.seen one.new)) }
    ensures two { OnOk result (Rests (P.seen two.old) (P.seen two.new)) }
    ensures three { OnOk result (Rests (P.seen three.old) (P.seen three.new)) }
{
    let mut device = Device::new();
    let (first_went, others_went) = join_mut(
        rt,
        &mut || take_turns(rt, one, first, signals, &signals.beds),
        &mut || -> Result<(), Fault>
            requires { IsSync R.row × ((P.seen two.now).number ≡ 0) × ((P.seen three.now).number ≡ 0) }
            ensures { OnOk result (Rests (P.seen two.entry.now) (P.seen two.exit.now) × Rests (P.seen three.entry.now) (P.seen three.exit.now)) }
        { take_turns_of_two(rt, two, three, second, &mut device, signals, &signals.beds) },
    );
    first_went?;
    others_went
}

/// Each actor gets a port, and a thread, and the root has their steps after that.
fn run_all<R: Threads + Wait + Sync>(
    rt: &R,
    words: &SharedWords,
    root: RootSeat,
    first: &mut Vcpu,
    second: &mut Vcpu,
) -> Result<RootSeat, Fault>
    requires alone { IsAlone (told_words words.now) }
    requires roots { AreRoots (told_words words.now) (told_root root) }
    requires fresh { told_root root ≡ map opening_root (told_words words.now) }
    ensures roots { IfOk result (λ root. AreRoots (told_words words.now) (told_root root)) }
    ensures done { IfOk result (λ root. AllDone (told_words words.now) (told_root root)) }
{
    let signals = Signals::new();
    let mut root = root;
    let mut one = Waking {
        port: split(words, &mut root, Actor::Vcpu { guest: 0, vcpu: 0 }),
        wake: &signals.beds,
    };
    let mut two = Waking {
        port: split(words, &mut root, Actor::Vcpu { guest: 0, vcpu: 1 }),
        wake: &signals.beds,
    };
    let device = Actor::Device {
        guest: 0,
        device: 0,
    };
    let mut three = Waking {
        port: split(words, &mut root, device),
        wake: &signals.beds,
    };
    run_three(rt, &mut one, &mut two, &mut three, first, second, &signals)?;
    join(words, &mut root, three.port);
    join(words, &mut root, two.port);
    join(words, &mut root, one.port);
    Ok(root)
}

/// Runs the machine from its opening: the words that its guest ends with.
pub fn run<R: Threads + Wait + Sync>(
    rt: &R,
    alloc: Global,
    first: &mut Vcpu,
    second: &mut Vcpu,
) -> Result<EndWords, Fault> {
    let scenario = one_guest(alloc, SHAPE, false, &[])?;
    if !scenario.is_good(alloc, Mode::Threads)? {
        return Err(Fault::BadGuest);
    }
    let (words, root) = start(alloc, &scenario)?;
    let root = run_all(rt, &words, root, first, second)?;
    finish(alloc, words, root).map_err(|_| Fault::NoMemory(AllocError))
}
