//! Messages of devices, and writes of a vCPU, over words that threads share.
ghost use Rattle.std.specs.Prelude.{◌≡◌, ◌≤◌, ◌*◌, IfOk, length, map};
ghost use Rattle.std.specs.Thread.{IsSync};
ghost use Rattle.gic_msi.specs.Words.{Device as DeviceActor, Vcpu as VcpuActor};
ghost use Rattle.port_table.specs.All.{told_words, told_root};
ghost use Rattle.port_table.specs.Told.{AreRoots, opening_root, splitting, words_at};

use crate::board::{try_set_up, writes};
use crate::sends::{Job, Kind, send_all};
use port_rest::one_guest;
use port_table::{Actor, GuestShape, Mode, RootSeat, SharedWords, TablePort, split, start};
use std::alloc::{AllocError, Global};
use std::sync::Wait;
use std::thread::{Threads, join_mut};

/// Four vCPUs, SPIs 32 to 63, four devices, 16 LPIs, and 64 KiB of memory.
const SHAPE: GuestShape = GuestShape {
    vcpus: 4,
    spis: 32,
    espis: 0,
    devices: 4,
    lpis: 32,
    ram: 65536,
};

/// Two devices that are next to each other send their messages, each in a thread of its own.
fn both<R: Threads + Wait + Sync>(
    rt: &R,
    one: &mut TablePort<'_>,
    other: &mut TablePort<'_>,
    kind: Kind,
    device: u32,
    messages: u32,
) -> u64
    requires { device ≤ 2 }
    ensures { result ≤ 2 * messages }
{
    let (first, second) = join_mut(
        rt,
        &mut || -> u64
            requires sync { IsSync R.row }
            requires device { device ≤ 2 }
            ensures { result ≤ messages }
        { send_all(rt, one, kind, device, messages) },
        &mut || -> u64
            requires sync { IsSync R.row }
            requires device { device ≤ 2 }
            ensures { result ≤ messages }
        { send_all(rt, other, kind, device + 1, messages) },
    );
    first + second
}

/// A device of the guest.
fn device(number: u32) -> Actor
    ensures { result ≡ DeviceActor 0 number }
{
    Actor::Device {
        guest: 0,
        device: number,
    }
}

/// The first vCPU of the guest.
fn vcpu() -> Actor
    ensures { result ≡ VcpuActor 0 0 }
{
    Actor::Vcpu { guest: 0, vcpu: 0 }
}

/// The first device sends its messages, or all four do, each in a thread of its own: how many are sent. Of the actors only the first vCPU
/// has a port so far.
fn send<R: Threads + Wait + Sync>(
    rt: &R,
    words: &SharedWords,
    root: RootSeat,
    kind: Kind,
    is_four: bool,
    count: u32,
) -> u64
    requires one { length (told_words words.now) ≡ 1 }
    requires vcpus { (words_at (told_words words.now) 0).guest.shape.vcpus ≡ 4 }
    requires devices { (words_at (told_words words.now) 0).guest.shape.devices ≡ 4 }
    requires roots { AreRoots (told_words words.now) (told_root root) }
    requires first { told_root root ≡ splitting (told_words words.now) (VcpuActor 0 0) (map opening_root (told_words words.now)) }
    ensures { result ≤ 4 * count }
{
    let mut root = root;
    let mut one = split(words, &mut root, device(0));
    if !is_four {
        return send_all(rt, &mut one, kind, 0, count);
    }
    let mut two = split(words, &mut root, device(1));
    let mut three = split(words, &mut root, device(2));
    let mut four = split(words, &mut root, device(3));
    let (early, late) = join_mut(
        rt,
        &mut || -> u64
            requires { IsSync R.row }
            ensures { result ≤ 2 * count }
        { both(rt, &mut one, &mut two, kind, 0, count) },
        &mut || -> u64
            requires { IsSync R.row }
            ensures { result ≤ 2 * count }
        { both(rt, &mut three, &mut four, kind, 2, count) },
    );
    early + late
}

/// Does a job, with so many messages of each device or so many writes: how many there are.
fn work<R: Threads + Wait + Sync>(
    rt: &R,
    words: &SharedWords,
    root: RootSeat,
    job: Job,
    count: u32,
) -> u64
    requires one { length (told_words words.now) ≡ 1 }
    requires vcpus { (words_at (told_words words.now) 0).guest.shape.vcpus ≡ 4 }
    requires devices { (words_at (told_words words.now) 0).guest.shape.devices ≡ 4 }
    requires roots { AreRoots (told_words words.now) (told_root root) }
    requires fresh { told_root root ≡ map opening_root (told_words words.now) }
    ensures { result ≤ 4 * count }
{
    let mut root = root;
    let mut first = split(words, &mut root, vcpu());
    let (kind, is_four) = match job {
        Job::Write(written) => return writes(rt, &mut first, written, count),
        Job::One(kind) => (kind, false),
        Job::Four(kind) => (kind, true),
    };
    try_set_up(rt, &mut first);
    send(rt, words, root, kind, is_four, count)
}

/// Does a job in a guest that just opened: how many messages or writes there are. An error where memory is refused.
pub(crate) fn all<R: Threads + Wait + Sync>(
    rt: &R,
    alloc: Global,
    job: Job,
    count: u32,
) -> Result<u64, AllocError>
    ensures { IfOk result (λ done. done ≤ 4 * count) }
{
    let scenario = one_guest(alloc, SHAPE, true, &[])?;
    let guests = scenario.guests.as_slice();
    if guests.len() != 1 || guests[0].shape != SHAPE || !scenario.is_good(alloc, Mode::Threads)? {
        return Ok(0);
    }
    let (words, root) = start(alloc, &scenario)?;
    Ok(work(rt, &words, root, job, count))
}
