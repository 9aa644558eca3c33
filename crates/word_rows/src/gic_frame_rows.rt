//! Halves of a register, and the parts of interrupts in one.
use gic_frame::{Half, Kind, part_in, with_part};

#[test]
fn halves(rt: HostRuntime) {
    let stored = 0x1122_3344_5566_7788;
    assert_eq!(rt; Half::Low.of(stored), 0x5566_7788);
    assert_eq!(rt; Half::High.of(stored), 0x1122_3344);
    assert_eq!(rt; Half::Whole.of(stored), stored);
    assert_eq!(rt;
        Half::Low.written(stored, 0xaabb_ccdd),
        0x1122_3344_aabb_ccdd
    );
    assert_eq!(rt;
        Half::High.written(stored, 0xaabb_ccdd),
        0xaabb_ccdd_5566_7788
    );
    assert_eq!(rt; Half::Whole.written(stored, 1), 1);
}

#[test]
fn parts(rt: HostRuntime) {
    assert_eq!(rt; part_in(Kind::SetEnable, 0x8000_0001, 31), 1);
    assert_eq!(rt; part_in(Kind::SetEnable, 0x8000_0001, 30), 0);
    assert_eq!(rt; part_in(Kind::Priority, 0xa0_b0_c0_d0, 2), 0xb0);
    assert_eq!(rt; part_in(Kind::Config, 0x2000_0008, 14), 2);
    assert_eq!(rt; part_in(Kind::Routing, 0x12_0034_5678, 0), 0x12_0034_5678);
    assert_eq!(rt; with_part(Kind::Group, 1, 1, 31), 0x8000_0001);
    assert_eq!(rt; with_part(Kind::Priority, 0xc0d0, 0xb0, 2), 0xb0_c0d0);
    assert_eq!(rt; with_part(Kind::Config, 0, 2, 15), 0x8000_0000);
    assert_eq!(rt;
        with_part(Kind::Routing, 0, 0x12_0034_5678, 0),
        0x12_0034_5678
    );
}
