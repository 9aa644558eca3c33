//! Two vCPUs that send each other an SGI, on two PEs that a gate holds up.

use crate::call::call;
use gic_top::{Gate, OK};
use std::sync::atomic::Ordering::SeqCst;
use std::sync::atomic::{AtomicBool, AtomicU64};
use std::test::Fail;
use std::thread;

/// Each vCPU sends SGI 5 to the other, and then acknowledges.
const TALK: &str =
    r#"{"pes":2,"guests":[{"vcpus":2,"on":true,"irqs":[{"id":5,"vcpu":0},{"id":5,"vcpu":1}]}],"steps":[{"vcpu":[0,0],"icc":"SGI1R","write":"0x05000002"},{"vcpu":[0,0],"icc":"IAR1"},{"vcpu":[0,1],"icc":"SGI1R","write":"0x05000001"},{"vcpu":[0,1],"icc":"IAR1"}]}"#;

/// Both vCPUs acknowledge the SGI.
const BOTH: &str =
    "2 0x0000000000000005\n4 0x0000000000000005\ncpu 0 0 vmcr=0xf04c000a ap0=0x00000000 ap1=0x00100000 lpis=0\ncpu 0 1 vmcr=0xf04c000a ap0=0x00000000 ap1=0x00100000 lpis=0\nirq 0 v0:5 en=1 grp=1 prio=0xa0 cfg=edge line=0 rise=0 soft=0 act=0 to=0\nirq 0 v1:5 en=1 grp=1 prio=0xa0 cfg=edge line=0 rise=0 soft=0 act=1 to=1\nend 4 2\n";

/// Both, or vCPU 1 acknowledges before the SGI to it was sent, or vCPU 0 does. They cannot both, since the PE that is held sends
/// after the other one.
const TEXTS: [&str; 3] = [
    BOTH,
    "2 0x0000000000000005\n4 0x00000000000003ff\ncpu 0 0 vmcr=0xf04c000a ap0=0x00000000 ap1=0x00100000 lpis=0\nirq 0 v0:5 en=1 grp=1 prio=0xa0 cfg=edge line=0 rise=0 soft=0 act=0 to=0\nirq 0 v1:5 en=1 grp=1 prio=0xa0 cfg=edge line=0 rise=0 soft=1 act=- to=1\nend 4 2\n",
    "2 0x00000000000003ff\n4 0x0000000000000005\ncpu 0 1 vmcr=0xf04c000a ap0=0x00000000 ap1=0x00100000 lpis=0\nirq 0 v0:5 en=1 grp=1 prio=0xa0 cfg=edge line=0 rise=0 soft=1 act=- to=0\nirq 0 v1:5 en=1 grp=1 prio=0xa0 cfg=edge line=0 rise=0 soft=0 act=1 to=1\nend 4 2\n",
];

/// How often each scenario is run.
const RUNS: u32 = 50;

/// How often a PE that is held looks whether it may go on. Then the test fails.
const PATIENCE: u32 = 100_000_000;

/// Turn 0 is before a PE's first operation, turn 1 after it, and turn 2 before its second one.
const FIRST_BEGINS: u64 = 0;

const SECOND_BEGINS: u64 = 2;

/// How many operations have ended on each of two PEs.
#[derive(Debug, Drop)]
struct Ended {
    on: [AtomicU64; 2],
    /// A PE was held for too long.
    stuck: AtomicBool,
}

impl Ended {
    fn none() -> Self {
        Ended {
            on: [AtomicU64::new(0), AtomicU64::new(0)],
            stuck: AtomicBool::new(false),
        }
    }

    fn count(&self, pe: u32) {
        self.on[usize::from(pe == 1)].fetch_add(1, SeqCst);
    }

    /// Holds a PE up until one of the other PE has ended.
    fn await_other(&self, pe: u32) {
        for _ in 0..PATIENCE {
            if self.on[usize::from(pe != 1)].load(SeqCst) > 0 {
                return;
            }
            thread::yield_now();
        }
        self.stuck.store(true, SeqCst);
    }
}

/// Holds the first operation that begins until one of the other PE has ended.
#[derive(Debug, Drop)]
struct HoldsFirst {
    ended: Ended,
    begun: AtomicBool,
}

impl Gate for HoldsFirst {
    fn pass(&self, pe: u32, turn: u64) {
        if turn % 2 == 1 {
            self.ended.count(pe);
        } else if turn == FIRST_BEGINS && !self.begun.swap(true, SeqCst) {
            self.ended.await_other(pe);
        }
    }
}

/// Holds the second operation of each PE until both first ones have ended.
#[derive(Debug, Drop)]
struct HoldsSecond {
    ended: Ended,
}

impl Gate for HoldsSecond {
    fn pass(&self, pe: u32, turn: u64) {
        if turn % 2 == 1 {
            self.ended.count(pe);
        } else if turn == SECOND_BEGINS {
            self.ended.await_other(pe);
        }
    }
}

#[test]
fn the_first_waits_for_the_other(rt: HostRuntime) -> Result<(), Fail> {
    for _ in 0..RUNS {
        let gate = HoldsFirst {
            ended: Ended::none(),
            begun: AtomicBool::new(false),
        };
        let told = call(&rt, rt.alloc(), &["threads", "2", "1"], TALK, &gate)?;
        assert!(rt; !gate.ended.stuck.load(SeqCst));
        assert_eq!(rt; told.status, OK);
        assert!(rt; TEXTS.contains(&told.text.as_str()), "{}", told.text);
    }
    Ok(())
}

#[test]
fn both_send_before_they_acknowledge(rt: HostRuntime) -> Result<(), Fail> {
    for _ in 0..RUNS {
        let gate = HoldsSecond {
            ended: Ended::none(),
        };
        let told = call(&rt, rt.alloc(), &["threads", "2", "2"], TALK, &gate)?;
        assert!(rt; !gate.ended.stuck.load(SeqCst));
        assert_eq!(rt; told.status, OK);
        assert_eq!(rt; told.text.as_str(), BOTH);
    }
    Ok(())
}
