//! Registers of a redistributor: at which offset each is, and what it holds.
use floor_registers::{
    GuestShape, Half, Kind, RedistReg as Reg, RedistRegRef as RegRef, enable_lpis_after,
    pendbaser_after, pendbaser_read, propbaser_after, redist_ctlr as ctlr, redist_decode as decode,
    redist_typer as typer,
};

const SHAPE: GuestShape = GuestShape {
    vcpus: 20,
    spis: 32,
    espis: 0,
    devices: 1,
    lpis: 0,
    ram: 0,
};

const WITH_LPIS: GuestShape = GuestShape { lpis: 1, ..SHAPE };

#[test]
fn typers(rt: HostRuntime) {
    assert_eq!(rt; typer(&SHAPE, 17), 0x0000_0011_0000_1100);
    assert_eq!(rt; typer(&SHAPE, 19), 0x0000_0013_0000_1310);
    assert_eq!(rt; typer(&WITH_LPIS, 0), 1);
}

#[test]
fn enable_lpis(rt: HostRuntime) {
    assert_eq!(rt; enable_lpis_after(&WITH_LPIS, false, 1), true);
    assert_eq!(rt; enable_lpis_after(&WITH_LPIS, true, 0), true);
    assert_eq!(rt; enable_lpis_after(&SHAPE, false, 1), false);
    assert_eq!(rt; ctlr(&WITH_LPIS, true), 1);
    assert_eq!(rt; ctlr(&SHAPE, true), 0);
}

#[test]
fn lpi_tables(rt: HostRuntime) {
    assert_eq!(rt; propbaser_after(false, 0, u64::MAX), 0x000f_ffff_ffff_f01f);
    assert_eq!(rt; propbaser_after(true, 0x300d, 0), 0x300d);
    assert_eq!(rt; pendbaser_after(false, 0, u64::MAX), 0x400f_ffff_ffff_0000);
    assert_eq!(rt; pendbaser_after(true, 0x1_0000, 0), 0x1_0000);
    assert_eq!(rt; pendbaser_read(0x4000_0000_0001_0000), 0x1_0000);
}

/// The interrupts with a part in an access.
const BITS: [(u32, u32, Kind, u32, u32); 5] = [
    (0x10080, 4, Kind::Group, 0, 32),
    (0x10100, 4, Kind::SetEnable, 0, 32),
    (0x10404, 4, Kind::Priority, 4, 4),
    (0x1041F, 1, Kind::Priority, 31, 1),
    (0x10C04, 4, Kind::Config, 16, 16),
];

/// The other registers that are there.
const PLAIN: [(u32, u32, Reg, Half); 6] = [
    (0x0000, 4, Reg::Ctlr, Half::Whole),
    (0x0008, 8, Reg::Typer, Half::Whole),
    (0x000C, 4, Reg::Typer, Half::High),
    (0x0070, 8, Reg::Propbaser, Half::Whole),
    (0x0078, 4, Reg::Pendbaser, Half::Low),
    (0xFFE8, 4, Reg::Pidr2, Half::Whole),
];

/// Accesses that are not aligned, of a size that the register does not take, or where no register is.
const RESERVED: [(u32, u32); 6] = [
    (0x0014, 4),
    (0x0074, 8),
    (0x10084, 4),
    (0x10100, 1),
    (0x10420, 1),
    (0x10C08, 4),
];

#[test]
fn accesses(rt: HostRuntime) {
    for (offset, size, kind, first, count) in BITS {
        assert_eq!(rt;
            decode(offset, size),
            RegRef::Bits { kind, first, count },
            "at {offset}"
        );
    }
    for (offset, size, reg, half) in PLAIN {
        assert_eq!(rt;
            decode(offset, size),
            RegRef::Plain { reg, half },
            "at {offset}"
        );
    }
    for (offset, size) in RESERVED {
        assert_eq!(rt; decode(offset, size), RegRef::Reserved, "at {offset}");
    }
}
