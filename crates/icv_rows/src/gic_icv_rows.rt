//! A guest's accesses of its CPU interface over packed list registers.
use floor_lists::{Outcome, TrapCause, access};
use gic_ich::{
    HCR_EN, HCR_GROUP_1_ALONE, HCR_GROUP_1_TRAPPING, IccReg, IchRegs, MAX_LIST_REGISTERS, misr,
};

/// A vCPU that listens to group 1 with the mask 0xF0.
const VMCR: u32 = 0xf04c_000a;
/// The level of priority 0xA0 active.
pub(crate) const LEVEL_A0: u32 = 0x0010_0000;

/// An access of a register, its value if it is a write, and what it answers.
type Row = (IccReg, Option<u64>, Outcome);

fn with(first: u64, second: u64, hcr: u32, ap1r: u32) -> IchRegs {
    let mut lr = [0; MAX_LIST_REGISTERS];
    lr[0] = first;
    lr[1] = second;
    IchRegs {
        lr,
        n: 2,
        vmcr: VMCR,
        hcr,
        ap0r: 0,
        ap1r,
    }
}

/// The answer of an access whose conditions are met, or else none.
pub(crate) fn checked(regs: &mut IchRegs, reg: IccReg, write: Option<u64>) -> Option<Outcome> {
    let has_direction = match write {
        None => reg.is_readable(),
        Some(_) => reg.is_writable(),
    };
    let has_registers = 1 <= regs.n && regs.n as usize <= MAX_LIST_REGISTERS;
    if has_direction && has_registers && regs.hcr / HCR_EN % 2 == 1 {
        return Some(access(regs, reg, write));
    }
    None
}

#[test]
fn pending_and_active_is_delivered_after_its_end(rt: HostRuntime) {
    let rows: [Row; 3] = [
        (IccReg::Iar1, None, Outcome::Value(1023)),
        (IccReg::Eoir1, Some(40), Outcome::Done),
        (IccReg::Iar1, None, Outcome::Value(40)),
    ];
    let mut regs = with(0xd0a0_0000_0000_0028, 0, HCR_GROUP_1_ALONE, LEVEL_A0);
    for (reg, write, want) in rows {
        assert_eq!(rt; checked(&mut regs, reg, write), Some(want));
    }
    assert_eq!(rt; regs.lr[0], 0x90a0_0000_0000_0028);
    assert_eq!(rt; regs.ap1r, LEVEL_A0);
}

#[test]
fn higher_priority_preempts(rt: HostRuntime) {
    let rows: [Row; 4] = [
        (IccReg::Hppir1, None, Outcome::Value(42)),
        (IccReg::Iar1, None, Outcome::Value(42)),
        (IccReg::Rpr, None, Outcome::Value(0x20)),
        (IccReg::Iar1, None, Outcome::Value(1023)),
    ];
    let mut regs = with(
        0x90a0_0200_0000_0028,
        0x5020_0000_0000_002a,
        HCR_GROUP_1_ALONE,
        LEVEL_A0,
    );
    for (reg, write, want) in rows {
        assert_eq!(rt; checked(&mut regs, reg, write), Some(want));
    }
}

#[test]
fn every_access_but_sre_is_trapped(rt: HostRuntime) {
    let rows: [Row; 6] = [
        (IccReg::Iar0, None, Outcome::Trap(TrapCause::All0)),
        (IccReg::Iar1, None, Outcome::Trap(TrapCause::All1)),
        (IccReg::Pmr, Some(0), Outcome::Trap(TrapCause::Common)),
        (IccReg::Dir, Some(40), Outcome::Trap(TrapCause::Dir)),
        (IccReg::Sgi1r, Some(0), Outcome::Trap(TrapCause::Sgi)),
        (IccReg::Sre, None, Outcome::Value(7)),
    ];
    let mut regs = with(0, 0, HCR_GROUP_1_TRAPPING, 0);
    for (reg, write, want) in rows {
        assert_eq!(rt; checked(&mut regs, reg, write), Some(want));
    }
}

/// ICH_MISR of registers of a PE, or else none.
fn maintenance(regs: &IchRegs) -> Option<u8> {
    if regs.n as usize <= MAX_LIST_REGISTERS {
        return Some(misr(regs));
    }
    None
}

/// Two list registers and ICH_HCR at an entry, and three accesses, each with ICH_MISR after it.
type Stay = (u64, u64, u32, [(IccReg, Option<u64>, u8); 3]);

/// No list register is pending any more where a cut asks for it, an end of interrupt is seen, at most one
/// list register is left, and the groups are switched.
const STAYS: [Stay; 4] = [
    (
        0x50a0_0000_0000_0028,
        0,
        0x99,
        [
            (IccReg::Hppir1, None, 0),
            (IccReg::Iar1, None, 0x08),
            (IccReg::Eoir1, Some(40), 0x08),
        ],
    ),
    (
        0x50a0_0200_0000_0028,
        0,
        0x91,
        [
            (IccReg::Hppir1, None, 0),
            (IccReg::Iar1, None, 0),
            (IccReg::Eoir1, Some(40), 0x01),
        ],
    ),
    (
        0x50a0_0000_0000_0028,
        0x50a0_0000_0000_0029,
        0x93,
        [
            (IccReg::Hppir1, None, 0),
            (IccReg::Iar1, None, 0),
            (IccReg::Eoir1, Some(40), 0x02),
        ],
    ),
    (
        0,
        0,
        0x91,
        [
            (IccReg::Igrpen1, Some(0), 0x80),
            (IccReg::Igrpen0, Some(1), 0x90),
            (IccReg::Igrpen1, Some(1), 0x10),
        ],
    ),
];

#[test]
fn maintenance_interrupts(rt: HostRuntime) {
    for (first, second, hcr, accesses) in STAYS {
        let mut regs = with(first, second, hcr, 0);
        assert_eq!(rt; maintenance(&regs), Some(0));
        for (reg, write, wanted) in accesses {
            assert!(rt; checked(&mut regs, reg, write).is_some());
            assert_eq!(rt; maintenance(&regs), Some(wanted), "{hcr} after {reg:?}");
        }
    }
}
