//! What a command does to the tables.
ghost use Rattle.std.specs.Prelude.{◌≡◌, ◌<◌, None};
ghost use Rattle.its_cmd.specs.Words.{IsShape};
ghost use Rattle.its_tab.specs.Fault.{fault_of};
ghost use Rattle.its_tab.specs.After.{without_events, maps_after, IsValid};
ghost use Rattle.its_tab.specs.Maps.{with_device, without_device};

use crate::tables::ItsTables;
use its_cmd::{Command, GuestShape};

impl ItsTables {
    /// Does to the tables what a command without a fault, in a guest of this shape, does (IHI 0069, "ITS
    /// commands").
    #[tactic(auto, using(crate::proofs::CarryLemmas::kept_now))]
    pub fn carry_out(&mut self, command: &Command, shape: &GuestShape)
        requires shape { IsShape shape.now }
        requires good { fault_of shape.now self.old command.now ≡ None }
        ensures value { self.new ≡ maps_after self.old command.now }
        ensures valid { IsValid shape.now self.old → IsValid shape.now self.new }
    {
        match *command {
            Command::Mapd {
                device,
                size,
                valid: true,
                ..
            } => self.replace_device(device, size + 1),
            Command::Mapd {
                device,
                valid: false,
                ..
            } => self.forget_device(device),
            Command::Mapc {
                icid,
                rdbase,
                valid: true,
            } => self.map_collection(icid, rdbase as u32),
            Command::Mapc {
                icid,
                valid: false,
                ..
            } => self.unmap_collection(icid),
            Command::Mapti {
                device,
                event,
                id,
                icid,
            } => self.map_event(device, event, id, icid),
            Command::Mapi {
                device,
                event,
                icid,
            } => self.map_event(device, event, event, icid),
            Command::Movi {
                device,
                event,
                icid,
            } => self.move_event(device, event, icid),
            Command::Discard { device, event } => self.unmap_event(device, event),
            _ => {}
        }
    }

    /// Unmaps all events of a device.
    fn forget_events(&mut self, device: u32)
        ensures { self.new ≡ without_events self.old device }
    {
        while let Some(event) = self.first_event(device) {
            self.unmap_event(device, event);
        }
    }

    /// Unmaps a device and all of its events.
    fn forget_device(&mut self, device: u32)
        ensures { self.new ≡ without_device (without_events self.old device) device }
    {
        self.forget_events(device);
        self.unmap_device(device);
    }

    /// Maps a device, none of whose events is mapped then.
    fn replace_device(&mut self, device: u32, bits: u32)
        requires range { device < 65536 }
        ensures { self.new ≡ with_device (without_events self.old device) device bits }
    {
        self.forget_events(device);
        self.map_device(device, bits);
    }
}
