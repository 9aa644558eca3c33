//! Four devices of one guest, each in a thread of its own.
ghost use Rattle.std.specs.Prelude.{◌≡◌, ◌<◌, IfSome, map};
ghost use Rattle.std.specs.Thread.{IsSync};
ghost use Rattle.dev_port.specs.Words.{Device as DeviceActor};
ghost use Rattle.port_table.specs.All.{told_words, told_root};
ghost use Rattle.port_table.specs.Told.{AreRoots, AllDone, opening_root};
ghost use Rattle.table_rows.specs.Rows.{IsAlone, Goes};

use crate::rows::{SHAPE, is_idle, open, scenario, send};
use port_table::{
    Actor, CorePort as Port, CoreStep, GuestWords, RootSeat, SharedWords, WordId, finish, join,
    split,
};
use std::alloc::{AllocError, Global};
use std::test::Fail;
use std::thread::{Threads, join_mut};

/// The interrupt that all raise, for vCPU 1.
const SHARED: u32 = 60;

/// How many messages each thread sends.
const MESSAGES: u32 = 1000;

/// How many interrupts each thread has for itself, for vCPU 0: those of the first begin at 32.
const OWN: u32 = 4;

/// A device sends its messages, every other one of the shared interrupt. None where it may not.
#[tactic(auto, using(crate::proofs::SameLemmas::same_twice))]
fn raise_all<P: Port>(port: &mut P, own: u32) -> Option<()>
    requires { own < 1000 }
    ensures { IfSome result (λ done. Goes (P.seen port.old) (P.seen port.new)) }
{
    for message in 0..MESSAGES {
        let spi = if message % 2 == 0 {
            SHARED
        } else {
            own + message / 2 % OWN
        };
        send(port, spi)?;
    }
    if is_idle(port) { Some(()) } else { None }
}

/// Two devices do, each in a thread of its own.
fn raise_two<P: Port + Send, Q: Port, R: Threads + Sync>(
    rt: &R,
    one: &mut P,
    two: &mut Q,
    own: u32,
) -> Option<()>
    requires { own < 500 }
    ensures one { IfSome result (λ done. Goes (P.seen one.old) (P.seen one.new)) }
    ensures two { IfSome result (λ done. Goes (Q.seen two.old) (Q.seen two.new)) }
{
    let (first, second) = join_mut(
        rt,
        &mut || raise_all(one, own),
        &mut || raise_all(two, own + OWN),
    );
    first?;
    second?;
    Some(())
}

/// Four devices do.
fn raise_four<P: Port + Send, R: Threads + Sync>(
    rt: &R,
    one: &mut P,
    two: &mut P,
    three: &mut P,
    four: &mut P,
) -> Option<()>
    ensures one { IfSome result (λ done. Goes (P.seen one.old) (P.seen one.new)) }
    ensures two { IfSome result (λ done. Goes (P.seen two.old) (P.seen two.new)) }
    ensures three { IfSome result (λ done. Goes (P.seen three.old) (P.seen three.new)) }
    ensures four { IfSome result (λ done. Goes (P.seen four.old) (P.seen four.new)) }
{
    let (first, second) = join_mut(
        rt,
        &mut || -> Option<()>
            requires { IsSync R.row }
            ensures { IfSome result (λ done. Goes (P.seen one.entry.now) (P.seen one.exit.now) × Goes (P.seen two.entry.now) (P.seen two.exit.now)) }
        { raise_two(rt, one, two, 32) },
        &mut || -> Option<()>
            requires { IsSync R.row }
            ensures { IfSome result (λ done. Goes (P.seen three.entry.now) (P.seen three.exit.now) × Goes (P.seen four.entry.now) (P.seen four.exit.now)) }
        { raise_two(rt, three, four, 32 + 2 * OWN) },
    );
    first?;
    second?;
    Some(())
}

/// The first word of a vCPU's index. None where there is no such vCPU.
#[tactic(auto, using(crate::proofs::RowLemmas::same_step))]
fn index<P: Port>(port: &mut P, vcpu: u32) -> Option<u64>
    ensures { IfSome result (λ word. Goes (P.seen port.old) (P.seen port.new)) }
{
    if port.shape() != SHAPE || vcpu >= SHAPE.vcpus {
        return None;
    }
    let word = port.step(CoreStep::Look {
        word: WordId::Index { vcpu, word: 0 },
    });
    if is_idle(port) { Some(word) } else { None }
}

/// A device of the guest.
fn device(number: u32) -> Actor
    ensures { result ≡ DeviceActor 0 number }
{
    Actor::Device {
        guest: 0,
        device: number,
    }
}

/// All four devices do, and the root has their steps; with it the first words of the indices of both vCPUs. None where one may
/// not.
fn all_raise<R: Threads + Sync>(
    rt: &R,
    words: &SharedWords,
    root: RootSeat,
) -> Option<(RootSeat, u64, u64)>
    requires alone { IsAlone (told_words words.now) }
    requires roots { AreRoots (told_words words.now) (told_root root) }
    requires fresh { told_root root ≡ map opening_root (told_words words.now) }
    ensures roots { IfSome result (λ both. AreRoots (told_words words.now) (told_root both.0)) }
    ensures done { IfSome result (λ both. AllDone (told_words words.now) (told_root both.0)) }
{
    let mut root = root;
    let mut one = split(words, &mut root, device(0));
    let mut two = split(words, &mut root, device(1));
    let mut three = split(words, &mut root, device(2));
    let mut four = split(words, &mut root, device(3));
    raise_four(rt, &mut one, &mut two, &mut three, &mut four)?;
    let first = index(&mut one, 0)?;
    let second = index(&mut two, 1)?;
    join(words, &mut root, four);
    join(words, &mut root, three);
    join(words, &mut root, two);
    join(words, &mut root, one);
    Some((root, first, second))
}

/// Of the SPIs, the interrupts 32 to 47 and 60 are pending by software, and both vCPUs are kicked.
fn are_raised(left: &GuestWords) -> bool {
    let spis = left.irqs.iter().skip(64);
    let as_raised = spis.enumerate().all(|(place, word)| {
        let is_raised = place < 16 || place == 28;
        word % 2 == u64::from(is_raised)
    });
    as_raised && left.vcpus.as_slice() == [2, 2].as_slice()
}

/// Whether all is raised then in a guest that just opened, and its bits are in the indices. None where the guest can't be made,
/// or a device may not send.
fn outcome<R: Threads + Sync>(rt: &R, alloc: Global) -> Result<Option<bool>, AllocError> {
    let scenario = scenario(alloc)?;
    let Some((words, root)) = open(alloc, &scenario)? else {
        return Ok(None);
    };
    let Some((root, first, second)) = all_raise(rt, &words, root) else {
        return Ok(None);
    };
    let ends = finish(alloc, words, root)?;
    let is_so = first == 0xFFFF_0000_0000 && second == 1 << 60;
    Ok(Some(is_so && ends.len() == 1 && ends.iter().all(are_raised)))
}

#[test]
fn raises_in_four_threads(rt: HostRuntime) -> Result<(), Fail> {
    assert_eq!(rt; outcome(&rt, rt.alloc())?, Some(true));
    Ok(())
}
