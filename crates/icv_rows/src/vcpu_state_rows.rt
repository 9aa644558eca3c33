//! What comes back from list registers, and a vCPU on a PE and off it.
use crate::gic_ich_rows::{ACTIVE_40, ENDED_40, PENDING_40};
use floor_lists::{Group, Key};
use vcpu_state::{
    CpuRec, GuestBack as Back, HeldIrq, IchRegs, LrEntry, LrState, MAX_LIST_REGISTERS, Shelved,
    fold,
};

const BOTH_40: u64 = 0xd0a0_0000_0000_0028;

/// A list register with 40, whether 40 had risen and whether it had been pended by software as it came
/// there, and what comes back: rise, soft, and active.
const ROWS: [(u64, bool, bool, (bool, bool, bool)); 7] = [
    (PENDING_40, false, true, (false, true, false)),
    (PENDING_40, true, false, (true, false, false)),
    (BOTH_40, false, true, (false, true, true)),
    (ACTIVE_40, true, true, (false, false, true)),
    (ACTIVE_40, false, true, (false, false, true)),
    (ENDED_40, true, true, (false, false, false)),
    (0, true, true, (false, false, false)),
];

#[test]
fn what_comes_back(rt: HostRuntime) {
    for (word, rise, soft, want) in ROWS {
        let mut lr = [0; MAX_LIST_REGISTERS];
        lr[3] = word;
        let regs = IchRegs {
            lr,
            n: 4,
            vmcr: 0xf04c_000a,
            hcr: 0x91,
            ap0r: 0,
            ap1r: 0,
        };
        let mut held = [None; MAX_LIST_REGISTERS];
        held[3] = Some(HeldIrq {
            key: Key::Spi(40),
            rise,
            soft,
            edge: true,
        });
        let back = fold(&regs, &held);
        let (rise, soft, active) = want;
        assert_eq!(rt; back[3], Some(Back { rise, soft, active }), "{word:#x}");
        assert_eq!(rt; back.iter().flatten().count(), 1);
    }
}

const SHELVED: Shelved = Shelved {
    guest: 0,
    vcpu: 1,
    cpu: CpuRec {
        pmr: 0xF0,
        bpr0: 2,
        bpr1: 3,
        cbpr: false,
        eoimode: false,
        en0: false,
        en1: true,
        lpis: true,
        ap0: 0,
        ap1: 0x0010_0000,
    },
    next: 7,
};

const ENTRY_40: LrEntry = LrEntry {
    id: 40,
    prio: 0xA0,
    group: Group::G1,
    state: LrState::Pending,
    eoi: false,
    hw: None,
};

const HELD_40: HeldIrq = HeldIrq {
    key: Key::Spi(40),
    rise: false,
    soft: true,
    edge: true,
};

#[test]
fn registers_hold_the_record(rt: HostRuntime) {
    let vcpu = SHELVED;
    let mut loaded = vcpu.load(4);
    assert_eq!(rt; loaded.regs.vmcr, 0xf04c_000a);
    assert_eq!(rt; loaded.regs.ap1r, 0x0010_0000);
    assert!(rt; loaded.holds_nothing());
    loaded.put(2, &ENTRY_40, HELD_40);
    assert_eq!(rt; loaded.regs.lr[2], 0x50a0_0000_0000_0028);
    assert!(rt; !loaded.holds_nothing());
    assert_eq!(rt; loaded.place_of(40), Some(2));
    assert_eq!(rt; loaded.place_of(41), None);
    loaded.clear(2);
    assert_eq!(rt; loaded.regs.lr[2], 0);
    assert!(rt; loaded.holds_nothing());
    loaded.regs.vmcr = 0xf04c_0008;
    let Shelved { cpu, next, .. } = loaded.shelve();
    assert!(rt; !cpu.en1 && cpu.lpis);
    assert_eq!(rt; next, 7);
}
