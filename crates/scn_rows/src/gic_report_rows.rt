//! One text that has each kind of line, and the line of a generated scenario's run.

use crate::made::{by_device, on_frame, on_register};
use gic_report::{soak_line, text};
use scn_read::{
    Answer, ColEnd, CpuEnd, DevEnd, DeviceOp, End, Ends, EvtEnd, Frame, Guests, IccReg, IrqEnd,
    ItsEnd, Key, PeOp, RunOut, Scenario, Step,
};
use std::alloc::{AllocError, Global};
use std::test::Fail;

const LINES: &str = r"1 0x000000000000001b
2 lrs 0x0000000000000091 0x50a0000000000028
4 0x0000000000000080
gicd 0 ctlr=0x00000053
cpu 0 0 vmcr=0xf04c000a ap0=0x00000000 ap1=0x00100000 lpis=0
cpu 0 1 vmcr=0xf04c000a ap0=0x00000000 ap1=0x00000000 lpis=1
irq 0 v0:27 en=1 grp=1 prio=0xa0 cfg=level line=1 rise=0 soft=0 act=0 to=0
irq 0 40 en=0 grp=0 prio=0x08 cfg=edge line=0 rise=1 soft=1 act=- to=-
irq 0 8195 en=1 grp=1 prio=0xa0 cfg=edge line=0 rise=0 soft=0 act=- to=1
its 0 ctlr=0x00000001 cbaser=0x8000000000001000 cwriter=0x0000000000000080 creadr=0x0000000000000021 fault=10
dev 0 8 bits=5
evt 0 8 3 8195 1
col 0 1 1
gicd 2 ctlr=0x00000050
end 5 2
";

/// A PPI that is active, and the pending SPI and the idle LPI.
const PPI: IrqEnd = IrqEnd {
    key: Key::Private { vcpu: 0, id: 27 },
    enabled: true,
    group: 1,
    prio: 0xA0,
    edge: false,
    line: true,
    rise: false,
    soft: false,
    act_by: Some(0),
    to: Some(0),
};

const SPI: IrqEnd = IrqEnd {
    key: Key::Spi(40),
    enabled: false,
    group: 0,
    prio: 0x08,
    edge: true,
    line: false,
    rise: true,
    soft: true,
    act_by: None,
    to: None,
};

const LPI: IrqEnd = IrqEnd {
    key: Key::Lpi(8195),
    enabled: true,
    group: 1,
    prio: 0xA0,
    edge: true,
    line: false,
    rise: false,
    soft: false,
    act_by: None,
    to: Some(1),
};

/// Two vCPUs, the second of which has only taken its LPI tables.
const CPUS: [CpuEnd; 2] = [
    CpuEnd {
        vcpu: 0,
        vmcr: 0xF04C_000A,
        ap0: 0,
        ap1: 0x0010_0000,
        lpis: false,
    },
    CpuEnd {
        vcpu: 1,
        vmcr: 0xF04C_000A,
        ap0: 0,
        ap1: 0,
        lpis: true,
    },
];

/// A queue that stalls at its second command, and what the ITS has mapped.
const ITS: ItsEnd = ItsEnd {
    ctlr: 1,
    cbaser: 0x8000_0000_0000_1000,
    cwriter: 0x80,
    creadr: 0x21,
    fault: 10,
};

const DEV: DevEnd = DevEnd { device: 8, bits: 5 };

const EVT: EvtEnd = EvtEnd {
    device: 8,
    event: 3,
    id: 8195,
    icid: 1,
};

const COL: ColEnd = ColEnd { icid: 1, vcpu: 1 };

/// A guest that ended as it opened but for GICD_CTLR.
fn quiet(alloc: Global, gicd: Option<u32>) -> End {
    End {
        gicd,
        cpus: Vec::new(alloc).into(),
        irqs: Vec::new(alloc).into(),
        its: None,
        devs: Vec::new(alloc).into(),
        evts: Vec::new(alloc).into(),
        cols: Vec::new(alloc).into(),
    }
}

/// A guest that has each kind of line.
fn busy(alloc: Global) -> Result<End, AllocError> {
    Ok(End {
        gicd: Some(0x53),
        cpus: CPUS.to_vec(alloc)?.into(),
        irqs: [PPI, SPI, LPI].to_vec(alloc)?.into(),
        its: Some(ITS),
        devs: [DEV].to_vec(alloc)?.into(),
        evts: [EVT].to_vec(alloc)?.into(),
        cols: [COL].to_vec(alloc)?.into(),
    })
}

/// Steps of each kind, of which two are reads of a vCPU.
fn steps(alloc: Global) -> Result<Vec<Step>, AllocError> {
    Ok(vec![in alloc;
        on_register(0, IccReg::Iar1, None),
        Step::Pe {
            pe: 0,
            op: PeOp::Lrs
        },
        on_frame(0, Frame::Its, 0x90, 8, Some(0x80)),
        on_frame(0, Frame::Its, 0x90, 8, None),
        by_device(0, DeviceOp::Message { spi: 40 }),
    ]?)
}

#[test]
fn writes_each_kind_of_line(rt: HostRuntime) -> Result<(), Fail> {
    let alloc = rt.alloc();
    let scenario = Scenario {
        pes: 1,
        lrs: 1,
        guests: Guests::new(alloc),
        steps: steps(alloc)?.into(),
    };
    let lrs = [0x91, 0x50a0_0000_0000_0028].to_vec(alloc)?;
    let out = RunOut {
        answers: vec![in alloc;
            Answer::Value(27),
            Answer::Regs(lrs.into()),
            Answer::Nothing,
            Answer::Value(0x80),
            Answer::Nothing,
        ]?
        .into(),
        ends: vec![in alloc; busy(alloc)?, quiet(alloc, None), quiet(alloc, Some(0x50))]?.into(),
    };
    let written = text(alloc, &scenario, &out)?;
    assert_eq!(rt; str::from_utf8(written.as_slice())?, LINES);
    Ok(())
}

/// The line of a run of five steps: the sum is 2 * 34 + 3 * 1023 + 5 * 2^63.
const LINE: &str = "soak 18446744073709551615 5 reads=3 spurious=1 sum=0x8000000000000c41\n";

#[test]
fn writes_the_line_of_a_number(rt: HostRuntime) -> Result<(), Fail> {
    let alloc = rt.alloc();
    let lrs = [1023].to_vec(alloc)?;
    let out = RunOut {
        answers: vec![in alloc;
            Answer::Nothing,
            Answer::Value(34),
            Answer::Value(1023),
            Answer::Regs(lrs.into()),
            Answer::Value(1 << 63),
        ]?
        .into(),
        ends: Ends::new(alloc),
    };
    let written = soak_line(alloc, u64::MAX, &out)?;
    assert_eq!(rt; str::from_utf8(written.as_slice())?, LINE);
    Ok(())
}
