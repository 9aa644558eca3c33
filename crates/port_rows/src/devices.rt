//! Messages, wires and messages to the ITS by hand, in the second of two guests.

use crate::made::{alike, tell_device};
use dev_port::{AlreadySo, CoreStep, Key, Port, Wire, WordId, message, msi, set_wire};
use port_rest::{is_settled, spi};
use port_seq::{GuestShape, Mode, SeqPort};
use std::alloc::{AllocError, Global};
use std::sync::Wait;
use std::test::Fail;

/// Two vCPUs, SPIs 32 to 63, 32 LPIs, and a device, which is the actor 2.
const SHAPE: GuestShape = GuestShape {
    vcpus: 2,
    spis: 32,
    espis: 0,
    devices: 1,
    lpis: 32,
    ram: 8,
};

/// An edge-triggered interrupt of vCPU 1, and a level-sensitive one of vCPU 0.
const EDGE: Key = Key::Spi(40);

const LEVEL: Key = Key::Spi(41);

/// The words of both as they open. Enabled, group 1 and both group enables are the bits 4 to 7, edge is bit 3, and a priority of 0xA0,
/// divided by 8, is 20 at [13:9]. Bit 26 says that the route is an affinity, which is at [37:27] and up.
const EDGE_OPENED: u64 = 0x0C00_28F8;

const LEVEL_OPENED: u64 = 0x0400_28F0;

/// Bits of an interrupt's word: soft, the line, and that it rose.
const SOFT: u64 = 1 << 0;

const LINE: u64 = 1 << 1;

const ROSE: u64 = 1 << 2;

/// A vCPU's word with a kick.
const KICK: u64 = 2;

/// A word of the guest.
fn look<P: Port>(port: &mut P, word: WordId) -> Option<u64> {
    if port.shape() != SHAPE {
        return None;
    }
    match word {
        WordId::Irq(Key::Spi(40 | 41)) | WordId::Vcpu(0 | 1) | WordId::Queue | WordId::Ctlr => {
            Some(port.step(CoreStep::Look { word }))
        }
        _ => None,
    }
}

/// Sends a message of interrupt 40. None where the actor may not.
fn send<P: Port>(port: &mut P) -> Option<()> {
    if port.shape() != SHAPE || port.actor() < SHAPE.vcpus || !is_settled(port.local_ref()) {
        return None;
    }
    message(port, 40);
    Some(())
}

/// Moves the wire of interrupt 41. None where the actor may not.
fn move_wire<P: Port>(port: &mut P, wire: &mut Wire, up: bool) -> Option<Result<(), AlreadySo>> {
    if port.shape() != SHAPE
        || port.actor() < SHAPE.vcpus
        || !is_settled(port.local_ref())
        || wire.key != LEVEL
    {
        return None;
    }
    Some(set_wire(port, wire, up))
}

/// Sends a message of an event to the ITS. None where the actor may not.
fn send_event<P: Port, R: Wait>(rt: &R, port: &mut P) -> Option<()> {
    if port.shape() != SHAPE || port.actor() < SHAPE.vcpus || !is_settled(port.local_ref()) {
        return None;
    }
    msi(rt, port, 8, 3);
    Some(())
}

/// The port of two guests with both interrupts that just opened, which is told of the device of the second. None where there is none.
fn open_device(alloc: Global) -> Result<Option<SeqPort>, AllocError> {
    let presets = [spi(40, 0xA0, true, 1), spi(41, 0xA0, false, 0)];
    let scenario = alike(alloc, 2, SHAPE, &presets)?;
    if !scenario.is_good(alloc, Mode::Threads)? {
        return Ok(None);
    }
    let mut port = SeqPort::start(alloc, &scenario)?;
    if !tell_device(&mut port, scenario.guests.as_slice()) {
        return Ok(None);
    }
    Ok(Some(port))
}

#[test]
fn a_message_kicks_its_target(rt: HostRuntime) -> Result<(), Fail> {
    let mut port = open_device(rt.alloc())?.ok_or("no device")?;
    assert_eq!(rt; port.actor(), 2);
    assert_eq!(rt; look(&mut port, WordId::Irq(EDGE)), Some(EDGE_OPENED));
    assert_eq!(rt; send(&mut port), Some(()));
    assert_eq!(rt;
        look(&mut port, WordId::Irq(EDGE)),
        Some(EDGE_OPENED + SOFT)
    );
    assert_eq!(rt; look(&mut port, WordId::Vcpu(1)), Some(KICK));
    assert_eq!(rt; look(&mut port, WordId::Vcpu(0)), Some(0));
    Ok(())
}

#[test]
fn a_wire_goes_up_once(rt: HostRuntime) -> Result<(), Fail> {
    let mut port = open_device(rt.alloc())?.ok_or("no device")?;
    let mut wire = Wire {
        key: LEVEL,
        up: false,
    };
    assert_eq!(rt; look(&mut port, WordId::Irq(LEVEL)), Some(LEVEL_OPENED));
    assert_eq!(rt; move_wire(&mut port, &mut wire, true), Some(Ok(())));
    assert_eq!(rt;
        look(&mut port, WordId::Irq(LEVEL)),
        Some(LEVEL_OPENED + LINE + ROSE)
    );
    assert_eq!(rt; look(&mut port, WordId::Vcpu(0)), Some(KICK));
    assert_eq!(rt; move_wire(&mut port, &mut wire, true), Some(Err(AlreadySo)));
    assert_eq!(rt; move_wire(&mut port, &mut wire, false), Some(Ok(())));
    assert_eq!(rt;
        look(&mut port, WordId::Irq(LEVEL)),
        Some(LEVEL_OPENED + ROSE)
    );
    assert!(rt; !wire.up);
    Ok(())
}

#[test]
fn an_event_meets_a_disabled_its(rt: HostRuntime) -> Result<(), Fail> {
    let mut port = open_device(rt.alloc())?.ok_or("no device")?;
    assert_eq!(rt; send_event(&rt, &mut port), Some(()));
    // The ITS is given back.
    assert_eq!(rt; look(&mut port, WordId::Queue), Some(0));
    assert_eq!(rt; look(&mut port, WordId::Ctlr), Some(3));
    assert!(rt; is_settled(port.local_ref()));
    Ok(())
}
