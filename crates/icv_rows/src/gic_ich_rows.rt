//! What is asked of the hardware, and what ICH_VTR and ICH_MISR say.
use gic_ich::{
    HCR_GROUP_1_ALONE, HCR_GROUP_1_CUT, HCR_GROUP_1_TRAPPING, IchRegs, MAX_LIST_REGISTERS, misr,
    vtr,
};

/// Pending 40, and pending 42 of a higher priority.
pub(crate) const PENDING_40: u64 = 0x50a0_0000_0000_0028;

const PENDING_42: u64 = 0x5020_0000_0000_002a;
/// Active 40, whose end is to be seen.
pub(crate) const ACTIVE_40: u64 = 0x90a0_0200_0000_0028;
/// Interrupt 40 after its end.
pub(crate) const ENDED_40: u64 = 0x10a0_0200_0000_0028;

/// The first two list registers, ICH_HCR, and ICH_MISR, where group 1 alone is enabled.
const ROWS: [(u64, u64, u32, u8); 8] = [
    (PENDING_40, PENDING_42, 0x91, 0),
    (PENDING_40, 0, 0x93, 0b10),
    (ACTIVE_40, PENDING_42, 0x99, 0),
    (ACTIVE_40, 0, 0x99, 0b1000),
    (ENDED_40, PENDING_42, 0x91, 0b1),
    (PENDING_40, PENDING_42, 0x0800_0095, 0b100),
    (PENDING_40, PENDING_42, 0x61, 0b110_0000),
    (0, 0, 0x0800_00FE, 0),
];

#[test]
fn maintenance_interrupts(rt: HostRuntime) {
    for (first, second, hcr, want) in ROWS {
        let mut lr = [0; MAX_LIST_REGISTERS];
        lr[0] = first;
        lr[1] = second;
        let regs = IchRegs {
            lr,
            n: 2,
            vmcr: 0xf04c_000a,
            hcr,
            ap0r: 0,
            ap1r: 0,
        };
        assert_eq!(rt; misr(&regs), want, "{hcr:#x}");
    }
}

#[test]
fn what_is_asked_for_group_1(rt: HostRuntime) {
    assert_eq!(rt; HCR_GROUP_1_ALONE, 0x91);
    assert_eq!(rt; HCR_GROUP_1_CUT, 0x99);
    assert_eq!(rt; HCR_GROUP_1_TRAPPING, 0x5C91);
}

#[test]
fn four_list_registers(rt: HostRuntime) {
    assert_eq!(rt; vtr(4), 0x9018_0003);
}
