//! A guest with two vCPUs and four devices, and what they do.
ghost use Rattle.std.specs.Prelude.{◌≡◌, IsTrue, IfOk, IfSome, false, map};
ghost use Rattle.dev_port.specs.Device.{CanCall};
ghost use Rattle.port_table.specs.All.{told_words, told_root};
ghost use Rattle.port_table.specs.Told.{AreRoots, opening_root};
ghost use Rattle.dev_port.specs.Core.{IsSameActor};
ghost use Rattle.table_rows.specs.Rows.{IsAlone};

use dev_port::{Key, Port, message, msi};
use port_rest::{is_settled, one_guest, spi};
use port_table::{GuestShape, Mode, RootSeat, Scenario, SharedWords, key_of, start};
use std::alloc::{AllocError, Global};
use std::sync::Wait;

/// Two vCPUs, SPIs 32 to 63, and four devices, which are the actors 2 to 5.
pub(crate) const SHAPE: GuestShape = GuestShape {
    vcpus: 2,
    spis: 32,
    espis: 0,
    devices: 4,
    lpis: 0,
    ram: 0,
};

/// A guest that opens on: interrupt 40 for vCPU 0, and 60 for vCPU 1.
pub(crate) fn scenario(alloc: Global) -> Result<Scenario, AllocError> {
    one_guest(
        alloc,
        SHAPE,
        true,
        &[spi(40, 0xA0, true, 0), spi(60, 0xA0, true, 1)],
    )
}

/// The words of a scenario that is this guest alone, and its root. None of another.
pub(crate) fn open(
    alloc: Global,
    scenario: &Scenario,
) -> Result<Option<(SharedWords, RootSeat)>, AllocError>
    ensures alone { IfOk result (λ opened. IfSome opened (λ both. IsAlone (told_words both.0))) }
    ensures roots { IfOk result (λ opened. IfSome opened (λ both. AreRoots (told_words both.0) (told_root both.1))) }
    ensures fresh { IfOk result (λ opened. IfSome opened (λ both. told_root both.1 ≡ map opening_root (told_words both.0))) }
{
    let guests = scenario.guests.as_slice();
    if guests.len() != 1 || guests[0].shape != SHAPE || !scenario.is_good(alloc, Mode::Threads)? {
        return Ok(None);
    }
    Ok(Some(start(alloc, scenario)?))
}

/// A device may make a call.
fn is_device<P: Port>(port: &P) -> bool
    ensures { IsTrue result → CanCall (P.seen port.now) }
{
    port.actor() >= port.shape().vcpus && is_settled(port.local_ref())
}

/// A device sends a message of an SPI. None where it may not.
#[tactic(auto, using(crate::proofs::SameLemmas::same_after))]
pub(crate) fn send<P: Port>(port: &mut P, spi: u32) -> Option<()>
    ensures { IfSome result (λ done. IsSameActor (P.seen port.old) (P.seen port.new)) }
{
    if !is_device(port) || key_of(spi, 0, &port.shape()) != Some(Key::Spi(spi)) {
        return None;
    }
    message(port, spi);
    Some(())
}

/// A device sends a message of an event to the ITS. None where it may not.
#[tactic(auto, using(crate::proofs::SameLemmas::same_after))]
pub(crate) fn send_event<P: Port, R: Wait>(rt: &R, port: &mut P) -> Option<()>
    ensures { IfSome result (λ done. IsSameActor (P.seen port.old) (P.seen port.new)) }
{
    if !is_device(port) {
        return None;
    }
    msi(rt, port, 8, 3);
    Some(())
}

/// The actor of a port has not the ITS.
pub(crate) fn is_idle<P: Port>(port: &P) -> bool
    ensures { IsTrue result → (P.seen port.now).local.turn ≡ false }
{
    !port.local_ref().turn
}
