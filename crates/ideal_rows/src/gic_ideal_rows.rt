//! A scenario that a library's user builds.

use crate::made::{access, message, scenario};
use gic_ideal::eager;
use scn_base::{Answer, GuestShape, IccReg, Key, Mode, Step};
use std::test::Fail;

/// One vCPU, SPIs 32 to 63 and extended SPIs 4096 to 4127.
const SHAPE: GuestShape = GuestShape {
    vcpus: 1,
    spis: 32,
    espis: 32,
    devices: 1,
    lpis: 0,
    ram: 0,
};

/// Steps, each with the value that it reads: an SPI comes before an extended SPI of its priority.
fn steps() -> [(Step, Option<u64>); 5] {
    [
        (message(4100), None),
        (message(40), None),
        (access(IccReg::Iar1, None), Some(40)),
        (access(IccReg::Eoir1, Some(40)), None),
        (access(IccReg::Iar1, None), Some(4100)),
    ]
}

/// The value of an answer that has one.
fn value_of(answer: &Answer) -> Option<u64> {
    match *answer {
        Answer::Value(value) => Some(value),
        _ => None,
    }
}

#[test]
fn scenario_built_in_code(rt: HostRuntime) -> Result<(), Fail> {
    let made = steps().map(|(step, _)| step);
    let scenario = scenario(rt.alloc(), SHAPE, &[40, 4100], &made)?;
    assert!(rt; scenario.is_good(rt.alloc(), Mode::Schedule)?);
    let out = eager(rt.alloc(), &scenario)?;
    assert_eq!(rt; out.answers.len(), steps().len());
    for (answer, (step, value)) in out.answers.iter().zip(steps()) {
        assert_eq!(rt; value_of(answer), value, "{step:?}");
    }
    for end in out.ends.iter() {
        for irq in end.irqs.iter() {
            assert_eq!(rt; (irq.key, irq.act_by), (Key::Spi(4100), Some(0)));
        }
        assert_eq!(rt; end.irqs.len(), 1);
    }
    assert_eq!(rt; out.ends.len(), 1);
    Ok(())
}
