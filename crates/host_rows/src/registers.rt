//! Linked list registers, word by word.
use gic_top::host::lists::{Group, Irq, Key, Outcome, Route, access, fresh};
use gic_top::host::registers::{HCR_EN, IccReg, IchRegs, MAX_LIST_REGISTERS};
use gic_top::host::{Link, LinkList, are_linked, fit_registers, linked, opening_cpu};
use std::test::Fail;

/// An edge-triggered interrupt of group 1 for vCPU 0 that is pending.
const PENDING: Irq = Irq {
    prio: 160,
    enabled: true,
    group: Group::G1,
    edge: true,
    line: false,
    rise: true,
    soft: false,
    act_by: None,
    holder: None,
    want: false,
    en0: true,
    en1: true,
    route: Route::Target(Some(0)),
};

const LINKS: [Link; 2] = [
    Link {
        phys: 100,
        vid: 40,
        vcpu: 0,
        prio: 160,
    },
    Link {
        phys: 101,
        vid: 41,
        vcpu: 0,
        prio: 160,
    },
];

/// An access, what it answers, and the list register after it: pending, active, and inactive with HW and pINTID as they were.
const ACCESSES: [(IccReg, Option<u64>, Outcome, u64); 3] = [
    (
        IccReg::Hppir1,
        None,
        Outcome::Value(40),
        0x70a0_0064_0000_0028,
    ),
    (
        IccReg::Iar1,
        None,
        Outcome::Value(40),
        0xb0a0_0064_0000_0028,
    ),
    (
        IccReg::Eoir1,
        Some(40),
        Outcome::Done,
        0x30a0_0064_0000_0028,
    ),
];

/// The answer of an access whose conditions are met, or else none.
fn checked(regs: &mut IchRegs, reg: IccReg, write: Option<u64>) -> Option<Outcome> {
    let has_direction = match write {
        None => reg.is_readable(),
        Some(_) => reg.is_writable(),
    };
    let has_registers = 1 <= regs.n && regs.n as usize <= MAX_LIST_REGISTERS;
    if has_direction && has_registers && regs.hcr / HCR_EN % 2 == 1 {
        return Some(access(regs, reg, write));
    }
    None
}

#[test]
fn a_linked_register_through_its_life(rt: HostRuntime) -> Result<(), Fail> {
    let cpu = opening_cpu(true);
    let links = LinkList::from(Vec::from_array(rt.alloc(), LINKS)?);
    let mut chooser = fresh(1, 0);
    chooser.offer(Key::Spi(40), &PENDING, &cpu);
    chooser.offer(Key::Spi(41), &PENDING, &cpu);
    let fill = chooser.plan(&cpu);
    assert!(rt; are_linked(&fill, &links, 0) && fit_registers(&links));
    let fill = linked(&fill, &links, 0);
    assert_eq!(rt; fill.hcr, 0x99);
    let mut regs = fill.registers(&cpu, 1);
    assert_eq!(rt; regs.lr[0], 0x70a0_0064_0000_0028);
    for (reg, write, want, word) in ACCESSES {
        assert_eq!(rt; checked(&mut regs, reg, write), Some(want));
        assert_eq!(rt; regs.lr[0], word, "after {reg:?}");
    }
    Ok(())
}
