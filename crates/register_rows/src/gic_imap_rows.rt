//! Registers of the ITS: at which offset each is, and what it holds.
use floor_registers::GuestShape;
use gic_imap::{
    Half, Reg, RegRef, Table, baser, baser_after, cbaser_after, creadr, ctlr, cwriter_after,
    decode, enabled_in, queue_bytes, retries, typer,
};

const SHAPE: GuestShape = GuestShape {
    vcpus: 1,
    spis: 32,
    espis: 0,
    devices: 1,
    lpis: 16,
    ram: 4096,
};

#[test]
fn control(rt: HostRuntime) {
    assert_eq!(rt; typer(&SHAPE), 0x1_ef71);
    assert_eq!(rt; typer(&GuestShape { lpis: 0, ..SHAPE }), 0);
    assert_eq!(rt; ctlr(false), 0x8000_0000);
    assert_eq!(rt; ctlr(enabled_in(u32::MAX)), 1);
}

#[test]
fn the_queue(rt: HostRuntime) {
    assert_eq!(rt; cbaser_after(false, 0, u64::MAX), 0x800f_ffff_ffff_f0ff);
    assert_eq!(rt; cbaser_after(true, 0x1000, 0), 0x1000);
    assert_eq!(rt; queue_bytes(0x1001), 8192);
    assert_eq!(rt; cwriter_after(0x1000, 0x20, 0xffe1), 0x20);
    assert_eq!(rt; cwriter_after(0x1000, 0x20, 0xfe1), 0xfe0);
    assert_eq!(rt; retries(0x1000, 0xfe1), true);
    assert_eq!(rt; retries(0x1000, 0xfe0), false);
    assert_eq!(rt; retries(0x1000, 0x1001), false);
    assert_eq!(rt; creadr(true, 0x40), 0x41);
}

#[test]
fn tables(rt: HostRuntime) {
    assert_eq!(rt; baser_after(false, 0, u64::MAX), 0xb8e0_ffff_ffff_ffff);
    assert_eq!(rt; baser_after(true, 0x1000, 0), 0x1000);
    assert_eq!(rt; baser(Table::Devices, 0), 0x0107_0000_0000_0000);
    assert_eq!(rt; baser(Table::Collections, u64::MAX), 0xbce7_ffff_ffff_ffff);
}

/// The registers that are there.
const PLAIN: [(u32, u32, Reg, Half); 9] = [
    (0x0000, 4, Reg::Ctlr, Half::Whole),
    (0x0004, 4, Reg::Iidr, Half::Whole),
    (0x0008, 8, Reg::Typer, Half::Whole),
    (0x0080, 8, Reg::Cbaser, Half::Whole),
    (0x008C, 4, Reg::Cwriter, Half::High),
    (0x0090, 4, Reg::Creadr, Half::Low),
    (0x0100, 8, Reg::Baser0, Half::Whole),
    (0x0108, 8, Reg::Baser1, Half::Whole),
    (0xFFE8, 4, Reg::Pidr2, Half::Whole),
];

/// Accesses that are not aligned, of a size that the register does not take, or where no register is.
const RESERVED: [(u32, u32); 6] = [
    (0x0000, 8),
    (0x0084, 8),
    (0x0088, 2),
    (0x0110, 8),
    (0x0138, 4),
    (0x10040, 4),
];

#[test]
fn accesses(rt: HostRuntime) {
    for (offset, size, reg, half) in PLAIN {
        assert_eq!(rt;
            decode(offset, size),
            RegRef::Plain { reg, half },
            "at {offset}"
        );
    }
    for (offset, size) in RESERVED {
        assert_eq!(rt; decode(offset, size), RegRef::Reserved, "at {offset}");
    }
}
