//! Tests of what open calls may yet make, worked out by hand: a message of SPI 40, and a write of ICPENDR1.
use history_play::{
    CallFound as Found, DeviceOp, Event, Frame, GuestOp, GuestShape, Key, Kind, Made, Operation,
    Touching, opening_irq,
};
use legal_play::may_make;
use std::alloc::Global;
use std::test::Fail;

/// Two vCPUs, SPIs 32 to 63, and a device, the actor 2.
const SHAPE: GuestShape = GuestShape {
    vcpus: 2,
    spis: 32,
    espis: 0,
    devices: 1,
    lpis: 0,
    ram: 0,
};

const MESSAGE: Operation = Operation::Device {
    op: DeviceOp::Message { spi: 40 },
};

const CLEARS: Operation = Operation::Access {
    op: GuestOp::Mem {
        frame: Frame::Dist,
        offset: 0x284,
        size: 4,
        write: Some(0x100),
    },
};

fn raises(spi: u32) -> Made {
    Made {
        event: Event::Raise { key: Key::Spi(spi) },
        found: Found::Nothing,
    }
}

fn clears(spi: u32) -> Made {
    let key = Key::Spi(spi);
    let touching = Touching::Register {
        kind: Kind::ClearPending,
        value: 0,
    };
    Made {
        event: Event::Touch { key, touching },
        found: Found::Record {
            irq: opening_irq(true, key),
        },
    }
}

/// Whether the message may yet raise an SPI.
fn may_raise(alloc: Global, piece: &[Made], spi: u32) -> Result<bool, Fail> {
    Ok(may_make(alloc, &SHAPE, 2, &MESSAGE, piece, Key::Spi(spi))?)
}

/// Whether the write may yet touch an SPI.
fn may_clear(alloc: Global, piece: &[Made], spi: u32) -> Result<bool, Fail> {
    Ok(may_make(alloc, &SHAPE, 1, &CLEARS, piece, Key::Spi(spi))?)
}

#[test]
fn a_message_may_raise_its_own_once(rt: HostRuntime) -> Result<(), Fail> {
    let alloc = rt.alloc();
    assert!(rt; may_raise(alloc, &[], 40)?);
    assert!(rt; !may_raise(alloc, &[], 41)?);
    assert!(rt; !may_raise(alloc, &[raises(40)], 40)?);
    Ok(())
}

#[test]
fn a_write_may_touch_what_is_left(rt: HostRuntime) -> Result<(), Fail> {
    let alloc = rt.alloc();
    assert!(rt; may_clear(alloc, &[], 32)?);
    assert!(rt; may_clear(alloc, &[], 63)?);
    assert!(rt; !may_clear(alloc, &[clears(32)], 32)?);
    assert!(rt; may_clear(alloc, &[clears(32)], 33)?);
    Ok(())
}
