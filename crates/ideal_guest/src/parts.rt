//! What the commands of a guest's ITS do to LPIs.
ghost use Rattle.std.specs.Prelude.{◌≡◌, ◌<◌, ℕ, IsTrue, IsSome, IfSome, None, Some, map, option_to_list, [], if◌then◌else◌};
ghost use Rattle.floor_calls.specs.Words.{has_interrupt};
ghost use Rattle.floor_calls.specs.Registers.{id_of, pair_of, target_of, fault_of, maps_after, without_event, without_events};
ghost use Rattle.floor_calls.specs.Calls.{HappensFreely, lpis_of_device, lpis_of_collection, lpis_for, each, mapping_parts, parts as parts_in, config_byte as config_byte_in, lpi_event};
ghost use Rattle.ideal_guest.specs.Ideal.{view_of, after_event, after_events};
ghost use Rattle.ideal_guest.specs.Queue.{is_of_event};
ghost use Rattle.ideal_guest.specs.Sound.{IsSound};

use crate::access::CLEAR;
use crate::guest::IdealGuest;
use floor_calls::{
    CallPart as Part, Command, FIRST_LPI, Key, PlainWord, Touching, config_address, config_of,
    target_in,
};

impl IdealGuest {
    /// The vCPU that an LPI is for.
    fn lpi_target(&self, lpi: u32) -> Option<u32>
        requires sound { IsSound self.now }
        requires there { IsTrue (has_interrupt self.now.shape (Key.Lpi lpi)) }
        ensures value { result ≡ (view_of self.now).targets lpi }
        ensures there { IfSome result (λ vcpu. vcpu < self.now.shape.vcpus) }
    {
        target_in(self.irq(Key::Lpi(lpi)).route, &self.shape)
    }

    /// The LPI of an event, if that is mapped.
    fn lpi_of(&self, device: u32, event: u32) -> Option<u32>
        ensures { result ≡ id_of self.now.tables (device, event) }
    {
        self.tables.find(device, event).map(|(lpi, _)| lpi)
    }

    /// The configuration byte of an LPI that is for a vCPU, or for none.
    fn config_byte(&self, target: Option<u32>, lpi: u32) -> u8
        requires sound { IsSound self.now }
        requires there { IsTrue (has_interrupt self.now.shape (Key.Lpi lpi)) }
        requires target { IfSome target (λ vcpu. vcpu < self.now.shape.vcpus) }
        ensures { result ≡ config_byte_in self.now.shape (view_of self.now) target lpi }
    {
        match target {
            Some(vcpu) => {
                let propbaser = self.word(PlainWord::Propbaser { vcpu });
                self.memory(config_address(propbaser, lpi), 1) as u8
            }
            None => 0,
        }
    }

    /// Does a part of a command, which the guest can have.
    fn do_part(&mut self, part: Part)
        requires sound { IsSound self.old }
        requires valid { HappensFreely self.old.shape (lpi_event self.old.shape (view_of self.old) (view_of self.old).targets part) }
        ensures after { self.new ≡ after_event self.old (lpi_event self.old.shape (view_of self.old) (view_of self.old).targets part) }
        ensures sound { IsSound self.new }
        ensures shape { self.new.shape ≡ self.old.shape }
        ensures tables { self.new.tables ≡ self.old.tables }
    {
        match part {
            Part::Forget { lpi } => self.touch(Key::Lpi(lpi), Touching::Forget),
            Part::Map { lpi, target } => {
                let (enabled, prio) = config_of(self.config_byte(Some(target), lpi));
                let touching = Touching::MapLpi {
                    target,
                    enabled,
                    prio,
                };
                self.touch(Key::Lpi(lpi), touching);
            }
            Part::Retarget { lpi, target } => {
                self.touch(Key::Lpi(lpi), Touching::Retarget { target });
            }
            Part::Raise { lpi } => self.raise(Key::Lpi(lpi)),
            Part::Clear { lpi } => self.touch(Key::Lpi(lpi), CLEAR),
            Part::Configure { lpi } => {
                let (enabled, prio) = config_of(self.config_byte(self.lpi_target(lpi), lpi));
                self.touch(Key::Lpi(lpi), Touching::Configure { enabled, prio });
            }
        }
    }

    /// Does a part of a command, if there is one.
    fn do_some(&mut self, part: Option<Part>)
        requires sound { IsSound self.old }
        requires valid { IfSome part (λ part. HappensFreely self.old.shape (lpi_event self.old.shape (view_of self.old) (view_of self.old).targets part)) }
        ensures after { self.new ≡ after_events (map (lpi_event self.old.shape (view_of self.old) (view_of self.old).targets) (option_to_list part)) self.old }
        ensures sound { IsSound self.new }
        ensures shape { self.new.shape ≡ self.old.shape }
        ensures tables { self.new.tables ≡ self.old.tables }
    {
        if let Some(part) = part {
            self.do_part(part);
        }
    }

    /// Forgets the LPI of an event that is mapped, and unmaps the event.
    fn forget_event(&mut self, device: u32, event: u32)
        requires sound { IsSound self.old }
        requires mapped { IsSome (pair_of self.old.tables (device, event)) }
        ensures after { (pair : ℕ × ℕ) → pair_of self.old.tables (device, event) ≡ Some pair → self.new ≡ record (after_event self.old (lpi_event self.old.shape (view_of self.old) (view_of self.old).targets (Part.Forget pair.0))) { tables = without_event self.old.tables (device, event) } }
        ensures sound { IsSound self.new }
        ensures shape { self.new.shape ≡ self.old.shape }
        ensures tables { self.new.tables ≡ without_event self.old.tables (device, event) }
    {
        let (lpi, _) = self.tables.find(device, event).unwrap();
        self.do_part(Part::Forget { lpi });
        self.tables.unmap_event(device, event);
    }

    /// Forgets the LPIs of a device's events, in rising EventID, and unmaps these events.
    fn forget_events(&mut self, device: u32)
        requires { IsSound self.old }
        ensures after { self.new ≡ record (after_events (map (lpi_event self.old.shape (view_of self.old) (view_of self.old).targets) (each (lpis_of_device self.old.tables device) Part.Forget)) self.old) { tables = without_events self.old.tables device } }
        ensures sound { IsSound self.new }
        ensures shape { self.new.shape ≡ self.old.shape }
    {
        while let Some(event) = self.tables.first_event(device) {
            self.forget_event(device, event);
        }
    }

    /// The LPIs of a collection are for this vCPU, or for none, in rising INTID.
    fn retarget_all(&mut self, icid: u16, target: Option<u32>)
        requires sound { IsSound self.old }
        requires target { IfSome target (λ vcpu. vcpu < self.old.shape.vcpus) }
        ensures after { self.new ≡ after_events (map (lpi_event self.old.shape (view_of self.old) (view_of self.old).targets) (each (lpis_of_collection self.old.shape self.old.tables icid) (λ lpi. Part.Retarget lpi target))) self.old }
        ensures sound { IsSound self.new }
        ensures shape { self.new.shape ≡ self.old.shape }
        ensures tables { self.new.tables ≡ self.old.tables }
    {
        for number in 0..self.shape.lpis {
            let lpi = FIRST_LPI + number;
            if self.tables.collection_of(lpi) == Some(icid) {
                self.do_part(Part::Retarget { lpi, target });
            }
        }
    }

    /// The configuration of the LPIs of a collection is read, in rising INTID.
    fn configure_all(&mut self, icid: u16)
        requires { IsSound self.old }
        ensures after { self.new ≡ after_events (map (lpi_event self.old.shape (view_of self.old) (view_of self.old).targets) (each (lpis_of_collection self.old.shape self.old.tables icid) Part.Configure)) self.old }
        ensures sound { IsSound self.new }
        ensures shape { self.new.shape ≡ self.old.shape }
        ensures tables { self.new.tables ≡ self.old.tables }
    {
        for number in 0..self.shape.lpis {
            let lpi = FIRST_LPI + number;
            if self.tables.collection_of(lpi) == Some(icid) {
                self.do_part(Part::Configure { lpi });
            }
        }
    }

    /// The LPIs that are for one vCPU are for another, in rising INTID.
    fn move_all(&mut self, from: u32, to: u32)
        requires sound { IsSound self.old }
        requires target { to < self.old.shape.vcpus }
        ensures after { self.new ≡ after_events (map (lpi_event self.old.shape (view_of self.old) (view_of self.old).targets) (each (lpis_for self.old.shape (view_of self.old).targets from) (λ lpi. Part.Retarget lpi (Some to)))) self.old }
        ensures sound { IsSound self.new }
        ensures shape { self.new.shape ≡ self.old.shape }
        ensures tables { self.new.tables ≡ self.old.tables }
    {
        let target = Some(to);
        for number in 0..self.shape.lpis {
            let lpi = FIRST_LPI + number;
            if self.lpi_target(lpi) == Some(from) {
                self.do_part(Part::Retarget { lpi, target });
            }
        }
    }

    /// An event is mapped to an LPI: what it was mapped to is forgotten first.
    fn map_lpi(&mut self, device: u32, event: u32, lpi: u32, icid: u16)
        requires sound { IsSound self.old }
        requires there { IsTrue (has_interrupt self.old.shape (Key.Lpi lpi)) }
        ensures after { self.new ≡ after_events (map (lpi_event self.old.shape (view_of self.old) (view_of self.old).targets) (mapping_parts self.old.tables (device, event) lpi icid)) self.old }
        ensures sound { IsSound self.new }
        ensures shape { self.new.shape ≡ self.old.shape }
        ensures tables { self.new.tables ≡ self.old.tables }
    {
        let old = self.lpi_of(device, event);
        let target = self.tables.target_of(icid);
        self.do_some(old.map(|lpi| Part::Forget { lpi }));
        self.do_some(target.map(|target| Part::Map { lpi, target }));
    }

    /// What a command that is about the LPI of one event does to it, if the event is mapped.
    fn event_part(&self, command: &Command) -> Option<Part>
        ensures { option_to_list result ≡ (if is_of_event command.now then parts_in self.now.shape self.now.tables (view_of self.now).targets command.now else []) }
    {
        match *command {
            Command::Movi {
                device,
                event,
                icid,
            } => {
                let target = self.tables.target_of(icid);
                self.lpi_of(device, event)
                    .map(|lpi| Part::Retarget { lpi, target })
            }
            Command::Int { device, event } => self
                .lpi_of(device, event)
                .map(|lpi| Part::Raise { lpi }),
            Command::Clear { device, event } => {
                self.lpi_of(device, event).map(|lpi| Part::Clear { lpi })
            }
            Command::Discard { device, event } => {
                self.lpi_of(device, event).map(|lpi| Part::Forget { lpi })
            }
            Command::Inv { device, event } => {
                self.lpi_of(device, event)
                    .map(|lpi| Part::Configure { lpi })
            }
            _ => None,
        }
    }

    /// Does to LPIs what a command without a fault does, in order. A MAPD unmaps the events that it forgets.
    fn do_parts(&mut self, command: &Command)
        requires sound { IsSound self.old }
        requires good { fault_of self.old.shape self.old.tables command.now ≡ None }
        ensures after { self.new ≡ record (after_events (map (lpi_event self.old.shape (view_of self.old) (view_of self.old).targets) (parts_in self.old.shape self.old.tables (view_of self.old).targets command.now)) self.old) { tables = self.new.tables } }
        ensures maps { maps_after self.new.tables command.now ≡ maps_after self.old.tables command.now }
        ensures good { fault_of self.new.shape self.new.tables command.now ≡ None }
        ensures sound { IsSound self.new }
        ensures shape { self.new.shape ≡ self.old.shape }
    {
        match *command {
            Command::Mapd { device, .. } => self.forget_events(device),
            Command::Mapc {
                icid,
                rdbase,
                valid: true,
            } => self.retarget_all(icid, Some(rdbase as u32)),
            Command::Mapc { icid, .. } if self.tables.target_of(icid).is_some() => {
                self.retarget_all(icid, None);
            }
            Command::Mapti {
                device,
                event,
                id,
                icid,
            } => self.map_lpi(device, event, id, icid),
            Command::Mapi {
                device,
                event,
                icid,
            } => self.map_lpi(device, event, event, icid),
            Command::Invall { icid } => self.configure_all(icid),
            Command::Movall { rdbase, second } => self.move_all(rdbase as u32, second as u32),
            Command::Mapc { .. } | Command::Sync { .. } => {}
            _ => self.do_some(self.event_part(command)),
        }
    }

    /// Does a command without a fault: what it does to LPIs, and then to the maps.
    pub(crate) fn carry_out(&mut self, command: &Command)
        requires sound { IsSound self.old }
        requires good { fault_of self.old.shape self.old.tables command.now ≡ None }
        ensures after { self.new ≡ record (after_events (map (lpi_event self.old.shape (view_of self.old) (view_of self.old).targets) (parts_in self.old.shape self.old.tables (view_of self.old).targets command.now)) self.old) { tables = maps_after self.old.tables command.now } }
        ensures sound { IsSound self.new }
        ensures shape { self.new.shape ≡ self.old.shape }
    {
        self.do_parts(command);
        let shape = self.shape;
        self.tables.carry_out(command, &shape);
    }
}
