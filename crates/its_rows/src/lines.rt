//! A translation line that is shut by hand while a device is in it.

use crate::acts::{SET_UP, TAKE_FOUR, first_other, send_and_fill};
use crate::guest::{TWO_DEVICES, open_guest};
use gic_msi::{CoreStep, Port, WordId, line_of_message, take_turn};
use port_rest::{DEVICE_ID, EVENT_ID, is_at_ease};
use port_seq::GuestPort;
use std::sync::Wait;
use std::test::Fail;

/// The devices, as actors.
const FIRST_DEVICE: u32 = 2;

const SECOND_DEVICE: u32 = 3;

/// The line of the message, and its bit among those that are known to be shut.
const LINE: u32 = 59;

const SHUT: u64 = 1 << 59;

/// The line's word with event 3 of device 8, which is LPI 8195, and no device in it; and with the second device in it: its bit
/// is the second. What is left of that where the message is taken out.
const FILLED: u64 = (8 << 34) + (3 << 18) + (3 << 5) + (1 << 4);

const ENTERED: u64 = FILLED + 0b10;

const CLOSED: u64 = 0b10;

/// Makes a step on the line, by an actor that may. None where it may not.
fn look<P: Port>(port: &mut P) -> Option<u64> {
    if port.shape() != TWO_DEVICES {
        return None;
    }
    Some(port.step(CoreStep::Look {
        word: WordId::Line(LINE),
    }))
}

/// Looks at the line and enters it: what the look found, and what it had when the actor was to enter.
fn enter<P: Port>(port: &mut P) -> Option<(u64, u64)> {
    if port.shape() != TWO_DEVICES {
        return None;
    }
    let seen = port.step(CoreStep::Look {
        word: WordId::Line(LINE),
    });
    if port.actor() < port.shape().vcpus || port.local_ref().line.is_some() {
        return None;
    }
    Some((seen, port.step(CoreStep::LineEnter { line: LINE, seen })))
}

fn leave<P: Port>(port: &mut P) -> Option<u64> {
    let entered = port.local_ref().line?;
    if port.shape() != TWO_DEVICES || port.actor() < TWO_DEVICES.vcpus || entered.line != LINE {
        return None;
    }
    Some(port.step(CoreStep::LineLeave { line: LINE }))
}

fn close<P: Port>(port: &mut P) -> Option<u64> {
    if port.shape() != TWO_DEVICES || !port.local_ref().turn {
        return None;
    }
    Some(port.step(CoreStep::LineClose { line: LINE }))
}

/// Takes the ITS. Whether the actor may.
fn take<P: Port, R: Wait>(rt: &R, port: &mut P) -> bool {
    if !is_at_ease(port.local_ref()) {
        return false;
    }
    take_turn(rt, port);
    true
}

/// Which lines the actor knows to be shut.
fn shut_lines<P: Port>(port: &P) -> u64 {
    port.local_ref().shut
}

/// Tells an actor of the guest. Whether there is one.
fn tell(guest: &mut GuestPort, actor: u32) -> bool {
    if guest.shape() != TWO_DEVICES || actor > SECOND_DEVICE {
        return false;
    }
    guest.set_actor(actor);
    true
}

#[test]
fn a_line_is_shut_once_it_is_left(rt: HostRuntime) -> Result<(), Fail> {
    assert_eq!(rt; line_of_message(DEVICE_ID, EVENT_ID), LINE);
    let mut port = open_guest(rt.alloc(), TWO_DEVICES)?.ok_or("no guest")?;
    let guest = port.current_mut();
    assert_eq!(rt; first_other(&rt, guest, SET_UP.as_slice()), None);
    assert_eq!(rt; first_other(&rt, guest, &[TAKE_FOUR]), None);
    assert!(rt; tell(guest, FIRST_DEVICE));
    assert!(rt; send_and_fill(&rt, guest, DEVICE_ID, EVENT_ID));
    // The second device is in it while vCPU 0 closes it.
    assert!(rt; tell(guest, SECOND_DEVICE));
    assert_eq!(rt; enter(guest), Some((FILLED, FILLED)));
    assert!(rt; tell(guest, 0));
    assert!(rt; take(&rt, guest));
    assert_eq!(rt; close(guest), Some(ENTERED));
    assert_eq!(rt; look(guest), Some(CLOSED));
    assert_eq!(rt; shut_lines(guest), 0);
    // It leaves it, and a look finds that.
    assert!(rt; tell(guest, SECOND_DEVICE));
    assert_eq!(rt; leave(guest), Some(CLOSED));
    assert!(rt; tell(guest, 0));
    assert_eq!(rt; shut_lines(guest), 0);
    assert_eq!(rt; look(guest), Some(0));
    assert_eq!(rt; shut_lines(guest), SHUT);
    Ok(())
}
