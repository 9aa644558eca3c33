//! Registers of the distributor: at which offset each is, and what it holds.
use floor_registers::{
    DistReg as Reg, DistRegRef as RegRef, Enables, GuestShape, Half, Kind, dist_ctlr as ctlr,
    dist_decode as decode, dist_typer as typer, enables_in, message_intid,
};

/// SPIs, extended SPIs, LPIs, and what TYPER reads.
const TYPERS: [(u32, u32, u32, u32); 5] = [
    (32, 0, 0, 0x0669_0001),
    (32, 32, 0, 0x0669_0101),
    (32, 1024, 0, 0xfe69_0101),
    (32, 0, 1, 0x066b_0001),
    (960, 0, 0, 0x0669_001e),
];

#[test]
fn typers(rt: HostRuntime) {
    for (spis, espis, lpis, value) in TYPERS {
        let shape = GuestShape {
            vcpus: 1,
            spis,
            espis,
            devices: 0,
            lpis,
            ram: 0,
        };
        assert_eq!(rt; typer(&shape), value);
    }
}

#[test]
fn control(rt: HostRuntime) {
    let both = Enables {
        group0: true,
        group1: true,
    };
    assert_eq!(rt; enables_in(0xffff_ffff), both);
    assert_eq!(rt; ctlr(both, false), 0x53);
    assert_eq!(rt; ctlr(enables_in(2), true), 0x8000_0052);
    assert_eq!(rt; message_intid(0xffff_e028), 40);
}

/// The interrupts with a part in an access.
const BITS: [(u32, u32, Kind, u32, u32); 17] = [
    (0x0080, 4, Kind::Group, 0, 32),
    (0x0284, 4, Kind::ClearPending, 32, 32),
    (0x03FC, 4, Kind::ClearActive, 992, 32),
    (0x0428, 4, Kind::Priority, 40, 4),
    (0x0429, 1, Kind::Priority, 41, 1),
    (0x0C08, 4, Kind::Config, 32, 16),
    (0x6140, 8, Kind::Routing, 40, 1),
    (0x7FD8, 8, Kind::Routing, 1019, 1),
    (0x1000, 4, Kind::Group, 4096, 32),
    (0x1204, 4, Kind::SetEnable, 4128, 32),
    (0x147C, 4, Kind::ClearEnable, 5088, 32),
    (0x1C00, 4, Kind::ClearActive, 4096, 32),
    (0x2004, 1, Kind::Priority, 4100, 1),
    (0x23FC, 4, Kind::Priority, 5116, 4),
    (0x3004, 4, Kind::Config, 4112, 16),
    (0x8020, 8, Kind::Routing, 4100, 1),
    (0x9FF8, 8, Kind::Routing, 5119, 1),
];

/// The other registers that are there.
const PLAIN: [(u32, u32, Reg, Half); 9] = [
    (0x0000, 4, Reg::Ctlr, Half::Whole),
    (0x0004, 4, Reg::Typer, Half::Whole),
    (0x0040, 2, Reg::SetSpi, Half::Whole),
    (0x0048, 4, Reg::ClrSpi, Half::Whole),
    (0x6140, 4, Reg::Router { id: 40 }, Half::Low),
    (0x6144, 4, Reg::Router { id: 40 }, Half::High),
    (0x8020, 4, Reg::Router { id: 4100 }, Half::Low),
    (0x8024, 4, Reg::Router { id: 4100 }, Half::High),
    (0xFFE8, 4, Reg::Pidr2, Half::Whole),
];

/// Accesses that are not aligned, of a size that the register does not take, or where no register is.
const RESERVED: [(u32, u32); 12] = [
    (0x0002, 4),
    (0x0042, 2),
    (0x0100, 1),
    (0x0428, 8),
    (0x0C01, 1),
    (0x6000, 8),
    (0x6144, 8),
    (0x7FE0, 8),
    (0x1080, 4),
    (0x1202, 4),
    (0x2400, 4),
    (0xA000, 8),
];

#[test]
fn accesses(rt: HostRuntime) {
    for (offset, size, kind, first, count) in BITS {
        assert_eq!(rt;
            decode(offset, size),
            RegRef::Bits { kind, first, count },
            "at {offset}"
        );
    }
    for (offset, size, reg, half) in PLAIN {
        assert_eq!(rt;
            decode(offset, size),
            RegRef::Plain { reg, half },
            "at {offset}"
        );
    }
    for (offset, size) in RESERVED {
        assert_eq!(rt; decode(offset, size), RegRef::Reserved, "at {offset}");
    }
}
