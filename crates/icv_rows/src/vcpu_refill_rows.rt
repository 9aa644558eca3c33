//! Plans of whole states, in the registers that they make.
use floor_lists::{Group, Irq, Key, Route, fresh};
use vcpu_state::CpuRec;

/// A vCPU with PMR 0xF0 that listens to group 1.
pub(crate) const CPU: CpuRec = CpuRec {
    pmr: 0xF0,
    bpr0: 2,
    bpr1: 3,
    cbpr: false,
    eoimode: false,
    en0: false,
    en1: true,
    lpis: false,
    ap0: 0,
    ap1: 0,
};

/// An edge interrupt of group 1 for vCPU 0, enabled and forwarded.
pub(crate) const IDLE: Irq = Irq {
    prio: 0xA0,
    enabled: true,
    group: Group::G1,
    edge: true,
    line: false,
    rise: false,
    soft: false,
    act_by: None,
    holder: None,
    want: false,
    en0: true,
    en1: true,
    route: Route::Affinity(0),
};

pub(crate) const PENDING: Irq = Irq { soft: true, ..IDLE };

pub(crate) const URGENT: Irq = Irq {
    prio: 0x20,
    ..PENDING
};

pub(crate) const ACTIVE: Irq = Irq {
    act_by: Some(0),
    ..IDLE
};

pub(crate) const ACTIVE_AGAIN: Irq = Irq {
    act_by: Some(0),
    ..PENDING
};

/// A level interrupt whose wire went up.
const RAISED: Irq = Irq {
    edge: false,
    line: true,
    rise: true,
    ..IDLE
};

/// How many list registers there are, the records of 40, 41 and 42, ICH_HCR, and the first two list
/// registers.
const ROWS: [(u32, Irq, Irq, Irq, u32, u64, u64); 6] = [
    (1, PENDING, IDLE, IDLE, 0x91, 0x50a0_0000_0000_0028, 0),
    (1, PENDING, PENDING, IDLE, 0x99, 0x50a0_0000_0000_0028, 0),
    (1, RAISED, IDLE, IDLE, 0x91, 0x50a0_0200_0000_0028, 0),
    (1, ACTIVE, IDLE, URGENT, 0x5C91, 0, 0),
    (1, ACTIVE_AGAIN, IDLE, IDLE, 0x91, 0xd0a0_0000_0000_0028, 0),
    (
        2,
        ACTIVE_AGAIN,
        PENDING,
        URGENT,
        0x99,
        0x90a0_0200_0000_0028,
        0x5020_0000_0000_002a,
    ),
];

#[test]
fn plans(rt: HostRuntime) {
    for (lrs, irq_40, irq_41, irq_42, hcr, lr_0, lr_1) in ROWS {
        assert!(rt; 1 <= lrs && lrs <= 16);
        let mut chooser = fresh(lrs, 0);
        chooser.offer(Key::Spi(40), &irq_40, &CPU);
        chooser.offer(Key::Spi(41), &irq_41, &CPU);
        chooser.offer(Key::Spi(42), &irq_42, &CPU);
        let fill = chooser.plan(&CPU);
        assert_eq!(rt; fill.hcr, hcr);
        let words = fill.words();
        assert_eq!(rt; (words[0], words[1]), (lr_0, lr_1));
        assert!(rt; words.iter().skip(2).all(|word| *word == 0));
    }
}
