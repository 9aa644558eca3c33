//! The locked operations of a message by themselves: one on the interrupt's word, one on the index, and one on the vCPU's word.
ghost use Rattle.std.specs.Prelude.{◌≤◌, ◌*◌};
ghost use Rattle.std.specs.Thread.{IsSync};

use std::sync::Wait;
use std::sync::atomic::{AtomicU64, Ordering};
use std::thread::{Threads, join_mut};

/// A cause, in an interrupt's word, and a kick, in a vCPU's.
const CAUSE: u64 = 1;

const KICK: u64 = 2;

/// The words of four interrupts, of the index of a vCPU, and of the vCPU.
#[derive(Drop)]
struct Words {
    irqs: [AtomicU64; 4],
    index: AtomicU64,
    vcpu: AtomicU64,
}

/// As many messages of a device.
fn send(words: &Words, device: u32, messages: u32) -> u64
    ensures { result ≤ messages }
{
    let Some(irq) = words.irqs.get(device as usize) else {
        return 0;
    };
    for _ in 0..messages {
        irq.fetch_or(CAUSE, Ordering::SeqCst);
        words.index.fetch_or(CAUSE, Ordering::SeqCst);
        words.vcpu.fetch_or(KICK, Ordering::SeqCst);
    }
    u64::from(messages)
}

/// Those of two devices that are next to each other, each in a thread of its own.
fn both<R: Threads + Wait + Sync>(rt: &R, words: &Words, device: u32, messages: u32) -> u64
    ensures { result ≤ 2 * messages }
{
    let (first, second) = join_mut(
        rt,
        &mut || -> u64
            ensures { result ≤ messages }
        { send(words, device, messages) },
        &mut || -> u64
            ensures { result ≤ messages }
        { send(words, device.saturating_add(1), messages) },
    );
    first + second
}

/// As many messages of one device, or of each of four in a thread of its own: how many there are.
pub(crate) fn all<R: Threads + Wait + Sync>(rt: &R, is_four: bool, messages: u32) -> u64
    ensures { result ≤ 4 * messages }
{
    let words = Words {
        irqs: [
            AtomicU64::new(0),
            AtomicU64::new(0),
            AtomicU64::new(0),
            AtomicU64::new(0),
        ],
        index: AtomicU64::new(0),
        vcpu: AtomicU64::new(0),
    };
    if !is_four {
        return send(&words, 0, messages);
    }
    let (early, late) = join_mut(
        rt,
        &mut || -> u64
            requires { IsSync R.row }
            ensures { result ≤ 2 * messages }
        { both(rt, &words, 0, messages) },
        &mut || -> u64
            requires { IsSync R.row }
            ensures { result ≤ 2 * messages }
        { both(rt, &words, 2, messages) },
    );
    early + late
}
