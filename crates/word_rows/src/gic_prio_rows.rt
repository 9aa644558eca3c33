//! What registers of the CPU interface read after a write.
use gic_aff::IccReg;
use gic_prio::{CpuRec, read_plain, write_plain};

const OPENING: CpuRec = CpuRec {
    pmr: 0,
    bpr0: 2,
    bpr1: 3,
    cbpr: false,
    eoimode: false,
    en0: false,
    en1: false,
    lpis: false,
    ap0: 0,
    ap1: 0,
};

#[test]
fn registers_read_what_they_keep(rt: HostRuntime) {
    let rows = [
        (IccReg::Pmr, 0xFF, 0xF8),
        (IccReg::Pmr, 0x1A7, 0xA0),
        (IccReg::Bpr0, 0, 2),
        (IccReg::Bpr0, 0xFF, 7),
        (IccReg::Bpr1, 0, 3),
        (IccReg::Bpr1, 0xC, 4),
        (IccReg::Ctlr, 0, 0xc0400),
        (IccReg::Ctlr, 2, 0xc0402),
        (IccReg::Ctlr, u64::MAX, 0xc0403),
        (IccReg::Igrpen0, 3, 1),
        (IccReg::Igrpen1, 2, 0),
        (IccReg::Ap0r0, 1, 0),
        (IccReg::Ap1r0, 1, 0),
        (IccReg::Sre, 0, 7),
    ];
    for (reg, value, want) in rows {
        let after = write_plain(&OPENING, reg, value);
        let read = after.and_then(|cpu| read_plain(&cpu, reg));
        assert_eq!(rt; read, Some(want), "{} after {value:#x}", reg.name());
    }
}

#[test]
fn common_binary_point_reads_one_more(rt: HostRuntime) {
    for (bpr0, want) in [(2, 3), (6, 7), (7, 7)] {
        let common = CpuRec {
            bpr0,
            cbpr: true,
            ..OPENING
        };
        assert_eq!(rt; read_plain(&common, IccReg::Bpr1), Some(want));
        assert_eq!(rt; write_plain(&common, IccReg::Bpr1, 5), Some(common));
    }
}
