//! A scenario, worked out from the generator's rule.

use crate::made::{by_device, on_frame, on_register};
use gic_report::generate;
use scn_read::{DeviceOp, Frame, IccReg, Preset, Step};
use std::test::Fail;

/// Device 0 sends a message of an SPI.
fn message(spi: u32) -> Step {
    by_device(0, DeviceOp::Message { spi })
}

/// A vCPU reads IAR1.
fn acknowledge(vcpu: u32) -> Step {
    on_register(vcpu, IccReg::Iar1, None)
}

/// A vCPU writes an SPI to EOIR1.
fn end_of_interrupt(vcpu: u32, spi: u64) -> Step {
    on_register(vcpu, IccReg::Eoir1, Some(spi))
}

/// vCPU 0 writes ones to GICD_ICACTIVER1.
fn deactivation() -> Step {
    on_frame(0, Frame::Dist, 0x384, 4, Some(0xFFFF_FFFF))
}

/// An edge-triggered interrupt of group 1.
fn preset(id: u32, prio: u8, target: u32) -> Preset {
    Preset {
        id,
        prio,
        edge: true,
        group: 1,
        to: Some(target),
        vcpu: None,
    }
}

#[test]
fn ten_steps_of_seven(rt: HostRuntime) -> Result<(), Fail> {
    let scenario = generate(rt.alloc(), 7, 10)?;
    let steps = [
        end_of_interrupt(1, 49),
        message(41),
        acknowledge(0),
        acknowledge(1),
        end_of_interrupt(1, 51),
        message(48),
        end_of_interrupt(0, 61),
        acknowledge(0),
        deactivation(),
        message(33),
    ];
    assert_eq!(rt; scenario.steps.as_slice(), steps.as_slice());
    Ok(())
}

#[test]
fn guest_of_each_scenario(rt: HostRuntime) -> Result<(), Fail> {
    let scenario = generate(rt.alloc(), u64::MAX, 0)?;
    assert!(rt; scenario.steps.is_empty());
    assert_eq!(rt;
        (scenario.pes, scenario.lrs, scenario.guests.len()),
        (2, 2, 1)
    );
    for guest in scenario.guests.iter() {
        assert!(rt; guest.on);
        assert_eq!(rt; guest.presets.len(), 32);
        for (place, expected) in [
            (0, preset(32, 64, 0)),
            (1, preset(33, 72, 1)),
            (15, preset(47, 184, 1)),
            (16, preset(48, 64, 0)),
            (31, preset(63, 184, 1)),
        ] {
            assert_eq!(rt; guest.presets.get(place).copied(), Some(expected));
        }
    }
    Ok(())
}
