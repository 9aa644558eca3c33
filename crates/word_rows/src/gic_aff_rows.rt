//! Which vCPUs an SGI names.
use gic_aff::{GuestShape, Targets, sgi_intid, sgi_targets, vcpu_of};

const TWO_VCPUS: GuestShape = GuestShape {
    vcpus: 2,
    spis: 32,
    espis: 0,
    devices: 1,
    lpis: 0,
    ram: 0,
};

const TWENTY_VCPUS: GuestShape = GuestShape {
    vcpus: 20,
    spis: 32,
    espis: 0,
    devices: 1,
    lpis: 0,
    ram: 0,
};

/// The value, the sender, and the targets among two vCPUs of an SGI of INTID 5.
const WRITES: [(u64, u32, u32); 10] = [
    (0x0500_0002, 0, 0b10),
    (0x0500_0001, 0, 0b01),
    (0x0500_ffff, 1, 0b11),
    (0x0500_0004, 0, 0),
    (0x0000_0100_0500_0000, 0, 0b10),
    (0x0000_0100_0500_0003, 1, 0b01),
    (0x0501_0002, 0, 0),
    (0x0000_0001_0500_0002, 0, 0),
    (0x0001_0000_0500_0002, 0, 0),
    (0x0000_1000_0500_0002, 0, 0),
];

#[test]
fn targets(rt: HostRuntime) {
    for (value, sender, targets) in WRITES {
        assert_eq!(rt;
            sgi_targets(value, sender, &TWO_VCPUS),
            Targets(targets),
            "of {value}"
        );
        assert_eq!(rt; sgi_intid(value), 5);
    }
    let second_range = 0x0000_1000_0500_0002;
    assert_eq!(rt;
        sgi_targets(second_range, 0, &TWENTY_VCPUS),
        Targets(1 << 17)
    );
    for (affinity, vcpu) in [(0, Some(0)), (1, Some(1)), (2, None), (0x100, None)] {
        assert_eq!(rt; vcpu_of(affinity, &TWO_VCPUS), vcpu, "of {affinity}");
    }
}
