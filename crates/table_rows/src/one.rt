//! A device and a vCPU of one guest, in one thread.
ghost use Rattle.std.specs.Prelude.{◌≡◌, IfSome, map};
ghost use Rattle.std.specs.Thread.{IsSync};
ghost use Rattle.port_table.specs.All.{told_words, told_root};
ghost use Rattle.port_table.specs.Told.{AreRoots, AllDone, opening_root};
ghost use Rattle.dev_port.specs.Core.{IsSameActor};
ghost use Rattle.table_rows.specs.Rows.{IsAlone};

use crate::rows::{is_idle, open, scenario, send, send_event};
use pe_icc::{Shelved, enter, icc_op, leave};
use port_rest::is_off;
use port_table::{
    Actor, CorePort as Port, GuestWords, IccReg, RootSeat, SharedWords, finish, join, split, unpack,
};
use std::alloc::{AllocError, Global};
use std::sync::Wait;
use std::test::Fail;
use std::thread::{Threads, join as join_threads};

/// List registers of the PE.
const LIST_REGISTERS: u32 = 4;

/// A vCPU enters a PE, acknowledges an interrupt of group 1, and leaves. None where it may not, or reads something else.
#[tactic(auto, using(crate::proofs::SameLemmas::same_after, crate::proofs::SameLemmas::same_twice))]
fn visit<P: Port, R: Wait>(rt: &R, port: &mut P, answer: u64) -> Option<()>
    requires { (P.seen port.old).number ≡ 0 }
    ensures { IfSome result (λ done. IsSameActor (P.seen port.old) (P.seen port.new)) }
{
    let vcpu = port.actor();
    if vcpu >= port.shape().vcpus || !is_off(port.local_ref()) {
        return None;
    }
    let shelved = Shelved {
        guest: 0,
        vcpu,
        cpu: port.local_ref().cpu,
        next: 0,
    };
    let mut vcpu = enter(port, shelved, LIST_REGISTERS);
    if icc_op(rt, port, &mut vcpu, IccReg::Iar1, None) != Some(answer) {
        return None;
    }
    leave(port, vcpu);
    Some(())
}

/// The device sends a message of interrupt 40 and one of an event to the ITS, which maps none, and vCPU 0 acknowledges the
/// interrupt, each through a port of its own. None where one may not, or something else is read.
fn one_after_the_other<R: Wait>(rt: &R, words: &SharedWords, root: RootSeat) -> Option<RootSeat>
    requires alone { IsAlone (told_words words.now) }
    requires roots { AreRoots (told_words words.now) (told_root root) }
    requires fresh { told_root root ≡ map opening_root (told_words words.now) }
    ensures roots { IfSome result (λ root. AreRoots (told_words words.now) (told_root root)) }
    ensures done { IfSome result (λ root. AllDone (told_words words.now) (told_root root)) }
{
    let mut root = root;
    let mut device = split(
        words,
        &mut root,
        Actor::Device {
            guest: 0,
            device: 0,
        },
    );
    let mut vcpu = split(words, &mut root, Actor::Vcpu { guest: 0, vcpu: 0 });
    send(&mut device, 40)?;
    send_event(rt, &mut device)?;
    visit(rt, &mut vcpu, 40)?;
    if !is_idle(&device) || !is_idle(&vcpu) {
        return None;
    }
    join(words, &mut root, vcpu);
    join(words, &mut root, device);
    Some(root)
}

/// What one vCPU and one device do, in a thread of its own, to which the root goes and with which the words are shared.
fn in_a_thread<R: Threads + Wait + Sync>(
    rt: &R,
    words: &SharedWords,
    root: RootSeat,
) -> Option<RootSeat>
    requires alone { IsAlone (told_words words.now) }
    requires roots { AreRoots (told_words words.now) (told_root root) }
    requires fresh { told_root root ≡ map opening_root (told_words words.now) }
    ensures roots { IfSome result (λ root. AreRoots (told_words words.now) (told_root root)) }
    ensures done { IfSome result (λ root. AllDone (told_words words.now) (told_root root)) }
{
    let (there, ()) = join_threads(
        rt,
        move || -> Option<RootSeat>
            requires { IsSync R.row × IsAlone (told_words words.now) × AreRoots (told_words words.now) (told_root root) × (told_root root ≡ map opening_root (told_words words.now)) }
            ensures { IfSome result (λ root. AreRoots (told_words words.entry.now) (told_root root) × AllDone (told_words words.entry.now) (told_root root)) }
        { one_after_the_other(rt, words, root) },
        || (),
    );
    there
}

/// Interrupt 40 is active by vCPU 0, and nothing is pending of it; nobody has the ITS.
fn is_taken(left: &GuestWords) -> bool {
    if left.queue != 0 {
        return false;
    }
    match left.irqs.get(72) {
        Some(word) => match unpack(*word) {
            Some(irq) => !irq.soft && irq.act_by == Some(0) && irq.holder.is_none(),
            None => false,
        },
        None => false,
    }
}

/// Whether it is taken after that, in a guest that just opened. None where the guest can't be made, or something else is read.
fn outcome<R: Threads + Wait + Sync>(rt: &R, alloc: Global) -> Result<Option<bool>, AllocError> {
    let scenario = scenario(alloc)?;
    let Some((words, root)) = open(alloc, &scenario)? else {
        return Ok(None);
    };
    let Some(root) = in_a_thread(rt, &words, root) else {
        return Ok(None);
    };
    let ends = finish(alloc, words, root)?;
    Ok(Some(ends.len() == 1 && ends.iter().all(is_taken)))
}

#[test]
fn acknowledges_a_message(rt: HostRuntime) -> Result<(), Fail> {
    assert_eq!(rt; outcome(&rt, rt.alloc())?, Some(true));
    Ok(())
}
