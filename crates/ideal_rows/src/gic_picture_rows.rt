//! The picture of a small scenario.

use crate::made::{access, message, scenario};
use gic_picture::{Bar, CpuMark, IrqName, Mark, picture_of};
use scn_base::{GuestShape, IccReg, Key, Mode, Step};
use std::test::Fail;

/// One vCPU, and SPIs 32 to 63.
const SHAPE: GuestShape = GuestShape {
    vcpus: 1,
    spis: 32,
    espis: 0,
    devices: 1,
    lpis: 0,
    ram: 0,
};

/// Interrupt 40 is sent, acknowledged and ended; 41 is sent after that.
fn steps() -> [Step; 4] {
    [
        message(40),
        access(IccReg::Iar1, None),
        access(IccReg::Eoir1, Some(40)),
        message(41),
    ]
}

/// A bar of this many states.
fn bar(pending: bool, active_by: Option<u32>, states: usize) -> Bar {
    let mark = Mark {
        pending,
        active_by,
        line: false,
    };
    Bar { mark, states }
}

/// What is shown of a CPU interface that lets priorities below 0xF0 through.
fn cpu(running: u64, irq: bool) -> CpuMark {
    CpuMark {
        pmr: 0xF0,
        running,
        irq,
        fiq: false,
    }
}

/// Interrupt 40 comes first, which three steps touch, and then 41, which one does.
fn names() -> [IrqName; 2] {
    [40, 41].map(|id| IrqName {
        guest: 0,
        key: Key::Spi(id),
    })
}

#[test]
fn states_after_each_step(rt: HostRuntime) -> Result<(), Fail> {
    let scenario = scenario(rt.alloc(), SHAPE, &[40, 41], &steps())?;
    assert!(rt; scenario.is_good(rt.alloc(), Mode::Schedule)?);
    assert_eq!(rt; scenario.steps.len(), 4);
    let picture = picture_of(rt.alloc(), &scenario, 0, 4)?;
    assert_eq!(rt; picture.rows.as_slice(), names().as_slice());
    assert_eq!(rt; picture.left_out, 0);
    let first = picture.bars(rt.alloc(), 0)?;
    let second = picture.bars(rt.alloc(), 1)?;
    let bars = [
        bar(false, None, 1),
        bar(true, None, 1),
        bar(false, Some(0), 1),
        bar(false, None, 2),
    ];
    assert_eq!(rt; first.as_slice(), bars.as_slice());
    assert_eq!(rt;
        second.as_slice(),
        [bar(false, None, 4), bar(true, None, 1)].as_slice()
    );
    assert_eq!(rt;
        picture.values.as_slice(),
        [None, Some(40), None, None].as_slice()
    );
    let cpus = [
        cpu(0xFF, false),
        cpu(0xFF, true),
        cpu(0xA0, false),
        cpu(0xFF, false),
        cpu(0xFF, true),
    ];
    assert_eq!(rt; picture.columns.len(), cpus.len());
    for (column, mark) in picture.columns.iter().zip(cpus) {
        assert_eq!(rt; column.cpus.get(0).copied(), Some(mark));
    }
    Ok(())
}
