//! Messages that a device sends over its port.
ghost use Rattle.std.specs.Prelude.{◌≡◌, ◌≤◌, IsTrue, true};
ghost use Rattle.gic_msi.specs.Registers.{has_lpis};
ghost use Rattle.gic_msi.specs.Words.{Spi, has_interrupt};
ghost use Rattle.gic_msi.specs.Core.{shape_of};
ghost use Rattle.gic_msi.specs.DevPort.Device.{CanCall};

use crate::board::Written;
use gic_msi::{Key, Port, message, msi, send_msi};
use port_rest::is_settled;
use port_table::key_of;
use std::sync::Wait;

/// What the devices send.
#[derive(Clone, Copy)]
pub(crate) enum Kind {
    /// Messages of an SPI of each device's own.
    Spi,
    /// Those of an event of each device's own, through their translation lines.
    Msi,
    /// The same ones by the ITS.
    Its,
    /// Those of two events that have one translation line, in turn.
    Pairs,
}

/// What there is to do.
#[derive(Clone, Copy)]
pub(crate) enum Job {
    /// The first device sends messages.
    One(Kind),
    /// All four devices do.
    Four(Kind),
    /// A vCPU writes a register.
    Write(Written),
}

/// The SPI and the event of the first device; the others have the next ones.
const FIRST_SPI: u32 = 32;

const FIRST_EVENT: u32 = 3;

/// The DeviceID of all messages, and how far the events are apart that have one line.
const DEVICE_ID: u32 = 8;

const LINES: u32 = 64;

/// The event of a device's message of this number.
fn event_of(kind: Kind, device: u32, message: u32) -> u32
    requires { device ≤ 3 }
{
    match kind {
        Kind::Pairs => FIRST_EVENT + LINES * (message % 2),
        _ => FIRST_EVENT + device,
    }
}

/// A device that may make a call sends so many messages of an SPI of the guest.
#[tactic(auto, using(crate::proofs::StillLemmas::still_there))]
fn send_spis<P: Port>(port: &mut P, spi: u32, messages: u32)
    requires there { IsTrue (has_interrupt (shape_of (P.seen port.old)) (Spi spi)) }
    requires ready { CanCall (P.seen port.old) }
{
    for _ in 0..messages {
        message(port, spi);
    }
}

/// A device that may make a call sends a message to the ITS, through its translation line or not.
#[tactic(auto, using(crate::proofs::StillLemmas::has_lpis_still))]
fn send_event<P: Port, R: Wait>(rt: &R, port: &mut P, kind: Kind, event: u32)
    requires lpis { has_lpis (shape_of (P.seen port.old)) ≡ true }
    requires ready { CanCall (P.seen port.old) }
    ensures lpis { has_lpis (shape_of (P.seen port.new)) ≡ true }
    ensures ready { CanCall (P.seen port.new) }
{
    match kind {
        Kind::Its => msi(rt, port, DEVICE_ID, event),
        _ => send_msi(rt, port, DEVICE_ID, event),
    }
}

/// A device that may make a call sends so many messages to the ITS.
fn send_events<P: Port, R: Wait>(rt: &R, port: &mut P, kind: Kind, device: u32, messages: u32)
    requires device { device ≤ 3 }
    requires lpis { has_lpis (shape_of (P.seen port.old)) ≡ true }
    requires ready { CanCall (P.seen port.old) }
{
    for number in 0..messages {
        send_event(rt, port, kind, event_of(kind, device, number));
    }
}

/// Sends messages as any actor: how many it sends, which is none where it may not.
pub(crate) fn send_all<P: Port, R: Wait>(
    rt: &R,
    port: &mut P,
    kind: Kind,
    device: u32,
    messages: u32,
) -> u64
    requires { device ≤ 3 }
    ensures { result ≤ messages }
{
    let shape = port.shape();
    let spi = FIRST_SPI + device;
    let is_there = shape.lpis != 0 && key_of(spi, 0, &shape) == Some(Key::Spi(spi));
    if port.actor() < shape.vcpus || !is_settled(port.local_ref()) || !is_there {
        return 0;
    }
    match kind {
        Kind::Spi => send_spis(port, spi, messages),
        _ => send_events(rt, port, kind, device, messages),
    }
    u64::from(messages)
}
