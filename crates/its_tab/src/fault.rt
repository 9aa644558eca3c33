//! The faults of ITS commands.
ghost use Rattle.std.specs.Prelude.{◌≡◌, ◌^◌, ◌∷◌, [], ◌&&◌, ◌||◌, not, is_none, nat_lt, nat_le};
ghost use Rattle.its_cmd.specs.Words.{IsShape, has_interrupt};
ghost use Rattle.its_tab.specs.Maps.{target_of};
ghost use Rattle.its_tab.specs.Fault.{number_of, first_fault, on_device, on_event, on_mapping, is_uncollected, is_no_vcpu, fault_of, fault_number as number_in};
ghost use Rattle.its_cmd.specs.Command.{decoded};
ghost use Rattle.its_tab.specs.After.{GoodCommandsKeepMaps};

use crate::tables::ItsTables;
use its_cmd::{BadCommand, Command, FIRST_LPI, GuestShape, Key, decode};

/// DeviceIDs are below this: 16 bits of DeviceID.
pub const DEVICES: u32 = 65536;
/// The greatest Size of a MAPD: 16 bits of EventID.
pub const MAX_SIZE: u32 = 15;

/// The number of the fault of doublewords that are no command.
pub const UNKNOWN_NUMBER: u8 = 10;

/// Why a command is not carried out, in the order of the faults' numbers (own choice).
#[derive(Clone, Copy, Debug, PartialEq, Eq, Hash)]
pub enum CmdFault {
    /// The DeviceID is 65536 or more.
    DeviceRange,
    /// A MAPD with V = 1 has a Size above 15.
    SizeRange,
    /// The device is not mapped.
    DeviceUnmapped,
    /// The EventID is not below 2 to the device's EventID bits.
    EventRange,
    /// The event is not mapped.
    EventUnmapped,
    /// The INTID is no LPI of the guest, or another event has it.
    IntIdRange,
    /// The named collection, or that of the event, is not mapped.
    CollectionUnmapped,
    /// An RDbase is not a vCPU of the guest.
    TargetRange,
}

impl CmdFault {
    /// The fault's number, 1 to 8.
    pub fn number(self) -> u8
        ensures { result ≡ number_of self }
    {
        match self {
            CmdFault::DeviceRange => 1,
            CmdFault::SizeRange => 2,
            CmdFault::DeviceUnmapped => 3,
            CmdFault::EventRange => 4,
            CmdFault::EventUnmapped => 5,
            CmdFault::IntIdRange => 6,
            CmdFault::CollectionUnmapped => 7,
            CmdFault::TargetRange => 8,
        }
    }
}

impl ItsTables {
    /// The first fault of a command, by number, with these tables in a guest of this shape. None exactly
    /// where the command is good.
    pub fn fault_in(&self, command: &Command, shape: &GuestShape) -> Option<CmdFault>
        requires { IsShape shape.now }
        ensures { result ≡ fault_of shape.now self.now command.now }
    {
        match *command {
            Command::Mapd {
                device,
                size,
                valid,
                ..
            } => mapd_fault(device, size, valid),
            Command::Mapc { rdbase, valid, .. } => mapc_fault(rdbase, valid, shape),
            Command::Mapti {
                device,
                event,
                id,
                icid,
            } => self.mapping_fault(device, event, id, icid, shape),
            Command::Mapi {
                device,
                event,
                icid,
            } => self.mapping_fault(device, event, event, icid, shape),
            Command::Movi {
                device,
                event,
                icid,
            } => self.move_fault(device, event, icid),
            Command::Int { device, event } | Command::Inv { device, event } => self.delivery_fault(
                device, event,
            ),
            Command::Clear { device, event } | Command::Discard { device, event } =>
                self.event_fault(device, event),
            Command::Invall { icid } => self.collection_fault(icid),
            Command::Movall { rdbase, second } => targets_fault(rdbase, second, shape),
            Command::Sync { rdbase } => target_fault(rdbase, shape),
        }
    }

    /// The number of the first fault of four doublewords, with these tables in a guest of this shape: 10 where
    /// they are no command. None exactly where they are a good command.
    pub fn fault_number(&self, words: [u64; 4], shape: &GuestShape) -> Option<u8>
        requires { IsShape shape.now }
        ensures { result ≡ number_in shape.now self.now (decoded words) }
    {
        match decode(words) {
            Ok(command) => self.fault_in(&command, shape).map(CmdFault::number),
            Err(BadCommand::UnknownNumber) => Some(UNKNOWN_NUMBER),
        }
    }

    /// The first of the faults 1, 3 and 4 of a command on an event of a mapped device.
    fn device_fault(&self, device: u32, event: u32) -> Option<CmdFault>
        ensures { result ≡ first_fault (on_device self.now device event []) }
    {
        if device >= DEVICES {
            return Some(CmdFault::DeviceRange);
        }
        let Some(bits) = self.bits_of(device) else {
            return Some(CmdFault::DeviceUnmapped);
        };
        is_past(event, bits).then_some(CmdFault::EventRange)
    }

    /// The first of the faults 1, 3, 4 and 5 of a command on a mapped event.
    fn event_fault(&self, device: u32, event: u32) -> Option<CmdFault>
        ensures { result ≡ first_fault (on_event self.now device event []) }
    {
        if let Some(fault) = self.device_fault(device, event) {
            return Some(fault);
        }
        self.find(device, event)
            .is_none()
            .then_some(CmdFault::EventUnmapped)
    }

    /// The first of these and 7, of a command for which the event's own collection has to be mapped.
    fn delivery_fault(&self, device: u32, event: u32) -> Option<CmdFault>
        ensures { result ≡ first_fault (on_event self.now device event ((is_uncollected self.now device event, CmdFault.CollectionUnmapped) ∷ [])) }
    {
        if let Some(fault) = self.event_fault(device, event) {
            return Some(fault);
        }
        let (_, icid) = self.find(device, event)?;
        self.collection_fault(icid)
    }

    /// The first of the faults 1, 3, 4, 5 and 7 of a command that moves a mapped event to a collection.
    fn move_fault(&self, device: u32, event: u32, icid: u16) -> Option<CmdFault>
        ensures { result ≡ first_fault (on_event self.now device event ((is_none (target_of self.now icid), CmdFault.CollectionUnmapped) ∷ [])) }
    {
        self.event_fault(device, event)
            .or_else(|| self.collection_fault(icid))
    }

    /// Fault 7 of a named collection.
    fn collection_fault(&self, icid: u16) -> Option<CmdFault>
        ensures { result ≡ first_fault ((is_none (target_of self.now icid), CmdFault.CollectionUnmapped) ∷ []) }
    {
        self.target_of(icid)
            .is_none()
            .then_some(CmdFault::CollectionUnmapped)
    }

    /// The first of the faults 1, 3, 4, 6 and 7 of a command that maps an event to an INTID.
    fn mapping_fault(
        &self,
        device: u32,
        event: u32,
        id: u32,
        icid: u16,
        shape: &GuestShape,
    ) -> Option<CmdFault>
        requires { IsShape shape.now }
        ensures { result ≡ first_fault (on_mapping shape.now self.now device event id icid) }
    {
        if let Some(fault) = self.device_fault(device, event) {
            return Some(fault);
        }
        if !is_lpi(id, shape)
            || self
                .owner_of(id)
                .is_some_and(|owner| owner != (device, event))
        {
            return Some(CmdFault::IntIdRange);
        }
        self.collection_fault(icid)
    }
}

/// Whether an EventID does not have this number of bits.
pub(crate) fn is_past(event: u32, bits: u32) -> bool
    ensures { result ≡ not (nat_lt event (2 ^ bits)) }
{
    bits < u32::BITS && event >> bits > 0
}

/// Whether the guest has this LPI.
fn is_lpi(id: u32, shape: &GuestShape) -> bool
    requires { IsShape shape.now }
    ensures { result ≡ has_interrupt shape.now (Key.Lpi id) }
{
    id >= FIRST_LPI && id - FIRST_LPI < shape.lpis
}

/// The first of the faults 1 and 2 of MAPD.
fn mapd_fault(device: u32, size: u32, valid: bool) -> Option<CmdFault>
    ensures { result ≡ first_fault ((nat_le DEVICES device, CmdFault.DeviceRange) ∷ (valid && nat_lt MAX_SIZE size, CmdFault.SizeRange) ∷ []) }
{
    if device >= DEVICES {
        return Some(CmdFault::DeviceRange);
    }
    (valid && size > MAX_SIZE).then_some(CmdFault::SizeRange)
}

/// Fault 8 of MAPC, which V = 0 has not.
fn mapc_fault(rdbase: u64, valid: bool, shape: &GuestShape) -> Option<CmdFault>
    ensures { result ≡ first_fault ((valid && is_no_vcpu shape.now rdbase, CmdFault.TargetRange) ∷ []) }
{
    if valid {
        target_fault(rdbase, shape)
    } else {
        None
    }
}

/// Fault 8 of an RDbase.
fn target_fault(rdbase: u64, shape: &GuestShape) -> Option<CmdFault>
    ensures { result ≡ first_fault ((is_no_vcpu shape.now rdbase, CmdFault.TargetRange) ∷ []) }
{
    (rdbase >= u64::from(shape.vcpus)).then_some(CmdFault::TargetRange)
}

/// Fault 8 of either RDbase of MOVALL.
fn targets_fault(rdbase: u64, second: u64, shape: &GuestShape) -> Option<CmdFault>
    ensures { result ≡ first_fault ((is_no_vcpu shape.now rdbase || is_no_vcpu shape.now second, CmdFault.TargetRange) ∷ []) }
{
    target_fault(rdbase, shape).or_else(|| target_fault(second, shape))
}

/// A law of all maps and commands: a command without a fault keeps the maps of a guest's ITS valid.
pub fn good_commands_keep_maps()
    ensures { GoodCommandsKeepMaps }
{}
