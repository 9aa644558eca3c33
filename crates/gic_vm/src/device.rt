//! What devices do to a machine.
ghost use Rattle.std.specs.Prelude.{◌≡◌, ◌↔◌, IsTrue, IsErr, None};
ghost use Rattle.ideal_guest.specs.Words.{DeviceOp, Key, IsShape, has_interrupt};
ghost use Rattle.ideal_guest.specs.Calls.{is_good_event, has_wire as has_wire_of};
ghost use Rattle.ideal_guest.specs.Call.{after_device};
ghost use Rattle.gic_vm.specs.Calls.{done_by, received, levelled, wired, told, left_by};
ghost use Rattle.gic_vm.specs.State.{with_guest};

use crate::done::{Done, Refused};
use crate::lines::look;
use crate::machine::Machine;
use ideal_guest::{DeviceOp, GuestShape, Key, SGI_COUNT, key_of};

/// Whether an interrupt has a wire: a PPI or an SPI.
fn has_wire(key: Key) -> bool
    ensures { result ≡ has_wire_of key }
{
    match key {
        Key::Private { id, .. } => id >= SGI_COUNT,
        Key::Spi(_) => true,
        Key::Lpi(_) => false,
    }
}

/// Whether a guest has an SPI with an INTID.
fn has_spi(shape: &GuestShape, id: u32) -> bool
    requires { IsShape shape.now }
    ensures { result ≡ has_interrupt shape.now (Key.Spi id) }
{
    key_of(id, 0, shape) == Some(Key::Spi(id))
}

impl Machine {
    /// Does what a device does.
    #[tactic(auto, using(crate::proofs::KeptLemmas::kept_after))]
    fn receive(&mut self, op: DeviceOp) -> Done
        requires { IsTrue (is_good_event self.old.guest.shape op) }
        ensures done { result ≡ done_by 0 self.old.guest (after_device op self.old.guest) }
        ensures machine { self.new ≡ with_guest self.old (after_device op self.old.guest) }
    {
        self.guest.receive(op);
        Done {
            value: 0,
            changed: look(&self.guest, &mut self.lines),
        }
    }

    /// The wire of an interrupt has a level.
    fn set_level(&mut self, key: Key, up: bool) -> Done
        requires wire { IsTrue (has_wire_of key) }
        requires there { IsTrue (has_interrupt self.old.guest.shape key) }
        ensures done { result ≡ done_by 0 self.old.guest (levelled key up self.old.guest) }
        ensures machine { self.new ≡ with_guest self.old (levelled key up self.old.guest) }
    {
        if self.guest.irq(key).line == up {
            return Done {
                value: 0,
                changed: 0,
            };
        }
        self.receive(DeviceOp::Wire { key, up })
    }

    /// The wire of an SPI, or of a PPI of a vCPU, has this level from now on; the level that it has changes nothing. An interrupt has one wire: who
    /// shares it gives the OR of the levels. An SPI does not look at the vCPU.
    ///
    /// `Refused::NotThere` exactly where the machine has no such interrupt, or it is an SGI or an LPI.
    pub fn wire(&mut self, intid: u32, vcpu: u32, up: bool) -> Result<Done, Refused>
        ensures answer { result ≡ told (wired intid vcpu up self.old.guest) self.old.guest }
        ensures machine { self.new ≡ left_by (wired intid vcpu up self.old.guest) self.old }
    {
        match key_of(intid, vcpu, &self.guest.shape) {
            Some(key) if has_wire(key) => Ok(self.set_level(key, up)),
            _ => Err(Refused::NotThere),
        }
    }

    /// A device writes the INTID of an SPI to GICD_SETSPI_NSR, which makes it pending.
    ///
    /// `Refused::NotThere` exactly where the machine has no such SPI.
    pub fn message(&mut self, spi: u32) -> Result<Done, Refused>
        ensures answer { result ≡ told (received (DeviceOp.Message spi) self.old.guest) self.old.guest }
        ensures machine { self.new ≡ left_by (received (DeviceOp.Message spi) self.old.guest) self.old }
    {
        if !has_spi(&self.guest.shape, spi) {
            return Err(Refused::NotThere);
        }
        Ok(self.receive(DeviceOp::Message { spi }))
    }

    /// A device writes an EventID to GITS_TRANSLATER, under its DeviceID: the LPI to which the ITS translates the two becomes pending; where it
    /// translates them to none, nothing happens.
    ///
    /// `Refused::NotThere` exactly where the machine has no LPIs, and so no ITS.
    pub fn msi(&mut self, device: u32, event: u32) -> Result<Done, Refused>
        ensures answer { result ≡ told (received (DeviceOp.Msi device event) self.old.guest) self.old.guest }
        ensures machine { self.new ≡ left_by (received (DeviceOp.Msi device event) self.old.guest) self.old }
    {
        if self.guest.shape.lpis == 0 {
            return Err(Refused::NotThere);
        }
        Ok(self.receive(DeviceOp::Msi { device, event }))
    }
}
