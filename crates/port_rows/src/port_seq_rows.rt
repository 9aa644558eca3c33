//! Steps by hand on one guest and on two.

use crate::made::{alike, tell_device};
use port_core::{GuestWords, NO_VCPUS};
use port_rest::spi;
use port_seq::{CorePort as Port, CoreStep, GuestShape, Key, Mode, Scenario, SeqPort, WordId};
use std::alloc::{AllocError, Global};
use std::test::Fail;

/// One vCPU, SPIs 32 to 63, and a device.
const SHAPE: GuestShape = GuestShape {
    vcpus: 1,
    spis: 32,
    espis: 0,
    devices: 1,
    lpis: 0,
    ram: 0,
};

/// Interrupt 40.
const KEY: Key = Key::Spi(40);

/// Its word as it opens: edge, enabled, group 1 and both group enables are the bits 3 to 7, its priority divided by 8 is 20 at [13:9], and
/// bit 26 says that its route is an affinity, that of vCPU 0.
const OPENED: u64 = 0x0400_28F8;

/// The word of interrupt 40 as it opens, with a cause by software.
const RAISED: u64 = OPENED + 1;

/// So many guests, each with interrupt 40: edge-triggered, of group 1 and priority 0xA0, for vCPU 0.
fn scenario(alloc: Global, count: u32) -> Result<Scenario, AllocError> {
    alike(alloc, count, SHAPE, &[spi(40, 0xA0, true, 0)])
}

/// A guest's words are those of its opening but for interrupt 40 and its vCPU: both group enables of GICD_CTLR, no more.
fn is_left(words: &GuestWords, irq: u64, vcpu: u64) -> bool {
    words.irqs.len() == 64
        && words.irqs.get(40).copied() == Some(irq)
        && words.vcpus.as_slice() == [vcpu].as_slice()
        && words.queue == 0
        && words.ctlr == 3
        && words.plain.len() == 8
        && words.plain.iter().all(|word| *word == 0)
}

#[test]
fn opens_and_ends(rt: HostRuntime) -> Result<(), Fail> {
    for count in 1..3 {
        let scenario = scenario(rt.alloc(), count)?;
        assert!(rt; scenario.is_good(rt.alloc(), Mode::Threads)?);
        let port = SeqPort::start(rt.alloc(), &scenario)?;
        let ends = port.finish(rt.alloc())?;
        assert_eq!(rt; ends.len(), count as usize);
        assert!(rt; ends.iter().all(|words| is_left(words, OPENED, 0)));
    }
    Ok(())
}

/// Raises the interrupt. None where the actor that is told owes a mark.
fn raise(port: &mut SeqPort) -> Option<u64> {
    if port.shape() != SHAPE || port.local_ref().marks.vcpus != NO_VCPUS {
        return None;
    }
    Some(port.step(CoreStep::Raise { key: KEY }))
}

/// Marks it for vCPU 0.
fn mark(port: &mut SeqPort) -> Option<u64> {
    if port.shape() != SHAPE {
        return None;
    }
    Some(port.step(CoreStep::Mark { key: KEY, vcpu: 0 }))
}

/// Kicks vCPU 0. None where the actor owes a mark.
fn kick(port: &mut SeqPort) -> Option<u64> {
    if port.shape() != SHAPE || port.local_ref().marks.vcpus != NO_VCPUS {
        return None;
    }
    Some(port.step(CoreStep::Kick { vcpu: 0 }))
}

/// Looks at its word.
fn look<P: Port>(port: &mut P) -> Option<u64> {
    if port.shape() != SHAPE {
        return None;
    }
    Some(port.step(CoreStep::Look {
        word: WordId::Irq(KEY),
    }))
}

#[test]
fn steps_by_hand(rt: HostRuntime) -> Result<(), Fail> {
    let scenario = scenario(rt.alloc(), 1)?;
    assert!(rt; scenario.is_good(rt.alloc(), Mode::Threads)?);
    let mut port = SeqPort::start(rt.alloc(), &scenario)?;
    assert_eq!(rt; port.actor(), 0);
    assert_eq!(rt; raise(&mut port), Some(OPENED));
    assert_eq!(rt; kick(&mut port), None);
    assert_eq!(rt; mark(&mut port), Some(0));
    assert_eq!(rt; mark(&mut port), Some(1 << 40));
    assert_eq!(rt; kick(&mut port), Some(0));
    assert_eq!(rt; kick(&mut port), Some(2));
    assert_eq!(rt; look(&mut port), Some(RAISED));
    Ok(())
}

#[test]
fn tells_another_actor(rt: HostRuntime) -> Result<(), Fail> {
    let scenario = scenario(rt.alloc(), 2)?;
    assert!(rt; scenario.is_good(rt.alloc(), Mode::Threads)?);
    let mut port = SeqPort::start(rt.alloc(), &scenario)?;
    assert!(rt; tell_device(&mut port, scenario.guests.as_slice()));
    assert_eq!(rt; port.actor(), 1);
    assert_eq!(rt; raise(&mut port), Some(OPENED));
    assert_eq!(rt; look(&mut port), Some(RAISED));
    assert_eq!(rt; look(port.current_mut()), Some(RAISED));
    Ok(())
}
