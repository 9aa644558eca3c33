//! Whole states through the plan, the accesses of a guest and the fold, register by register.

use crate::gic_icv_rows::{LEVEL_A0, checked};
use crate::vcpu_refill_rows::{ACTIVE, ACTIVE_AGAIN, CPU, IDLE, PENDING, URGENT};
use floor_lists::{Irq, Key, Outcome, TrapCause, fresh};
use std::process::Abort;
use vcpu_state::{CpuRec, GuestBack as Back, IccReg, fold};

/// The levels of priorities 0x20 and 0xA0 active.
const LEVELS_20_A0: u32 = 0x0010_0010;

/// What comes back: the cause and the active state, or neither.
const CAUSE: Back = Back {
    rise: false,
    soft: true,
    active: false,
};

const IN_SERVICE: Back = Back {
    rise: false,
    soft: false,
    active: true,
};

const BOTH: Back = Back {
    rise: false,
    soft: true,
    active: true,
};

/// An access, what it answers, and the first two list registers and ICH_AP1R0 after it.
type Row = (IccReg, Option<u64>, Outcome, [u64; 2], u32);

const READ_40: Row = (
    IccReg::Iar1,
    None,
    Outcome::Value(40),
    [0x90a0_0000_0000_0028, 0],
    LEVEL_A0,
);

/// The list registers, the levels of group 1, the records of 40, 41 and 42, and ICH_HCR and the first two list
/// registers of their plan; what comes back at once, and after the accesses.
#[derive(Clone, Copy)]
struct State {
    lrs: u32,
    ap1: u32,
    irqs: [Irq; 3],
    hcr: u32,
    words: [u64; 2],
    at_once: [Option<Back>; 2],
    later: [Option<Back>; 2],
}

fn check(rt: &impl Abort, state: &State, rows: &[Row]) {
    assert!(rt; 1 <= state.lrs && state.lrs <= 16);
    let mut chooser = fresh(state.lrs, 0);
    chooser.offer(Key::Spi(40), &state.irqs[0], &CPU);
    chooser.offer(Key::Spi(41), &state.irqs[1], &CPU);
    chooser.offer(Key::Spi(42), &state.irqs[2], &CPU);
    let fill = chooser.plan(&CPU);
    assert_eq!(rt; fill.hcr, state.hcr);
    let words = fill.words();
    assert_eq!(rt; [words[0], words[1]], state.words);
    let cpu = CpuRec {
        ap1: state.ap1,
        ..CPU
    };
    let mut regs = fill.registers(&cpu, state.lrs);
    let held = fill.held();
    let back = fold(&regs, &held);
    assert_eq!(rt; [back[0], back[1]], state.at_once);
    for (reg, write, outcome, words, ap1) in rows {
        assert_eq!(rt; checked(&mut regs, *reg, *write), Some(*outcome));
        assert_eq!(rt; [regs.lr[0], regs.lr[1]], *words);
        assert_eq!(rt; (regs.ap0r, regs.ap1r), (0, *ap1));
        assert_eq!(rt; (regs.hcr, regs.vmcr), (state.hcr, 0xf04c_000a));
    }
    let back = fold(&regs, &held);
    assert_eq!(rt; [back[0], back[1]], state.later);
}

#[test]
fn one_pending(rt: HostRuntime) {
    let pending = State {
        lrs: 1,
        ap1: 0,
        irqs: [PENDING, IDLE, IDLE],
        hcr: 0x91,
        words: [0x50a0_0000_0000_0028, 0],
        at_once: [Some(CAUSE), None],
        later: [Some(IN_SERVICE), None],
    };
    check(&rt, &pending, &[READ_40]);
    let cut = State {
        irqs: [PENDING, PENDING, IDLE],
        hcr: 0x99,
        ..pending
    };
    check(&rt, &cut, &[READ_40]);
}

#[test]
fn trapping(rt: HostRuntime) {
    let trap = |reg, cause| -> Row { (reg, None, Outcome::Trap(cause), [0, 0], LEVEL_A0) };
    check(
        &rt,
        &State {
            lrs: 1,
            ap1: LEVEL_A0,
            irqs: [ACTIVE, IDLE, URGENT],
            hcr: 0x5C91,
            words: [0, 0],
            at_once: [None, None],
            later: [None, None],
        },
        &[
            trap(IccReg::Iar1, TrapCause::All1),
            trap(IccReg::Rpr, TrapCause::Common),
        ],
    );
}

#[test]
fn pending_and_active(rt: HostRuntime) {
    let both = [0xd0a0_0000_0000_0028, 0];
    check(
        &rt,
        &State {
            lrs: 1,
            ap1: LEVEL_A0,
            irqs: [ACTIVE_AGAIN, IDLE, IDLE],
            hcr: 0x91,
            words: both,
            at_once: [Some(BOTH), None],
            later: [Some(IN_SERVICE), None],
        },
        &[
            (IccReg::Iar1, None, Outcome::Value(1023), both, LEVEL_A0),
            (
                IccReg::Eoir1,
                Some(40),
                Outcome::Done,
                [0x50a0_0000_0000_0028, 0],
                0,
            ),
            READ_40,
        ],
    );
}

#[test]
fn cut_beside_an_active_one(rt: HostRuntime) {
    check(
        &rt,
        &State {
            lrs: 2,
            ap1: LEVEL_A0,
            irqs: [ACTIVE_AGAIN, PENDING, URGENT],
            hcr: 0x99,
            words: [0x90a0_0200_0000_0028, 0x5020_0000_0000_002a],
            at_once: [Some(IN_SERVICE), Some(CAUSE)],
            later: [Some(IN_SERVICE), Some(IN_SERVICE)],
        },
        &[(
            IccReg::Iar1,
            None,
            Outcome::Value(42),
            [0x90a0_0200_0000_0028, 0x9020_0000_0000_002a],
            LEVELS_20_A0,
        )],
    );
}
