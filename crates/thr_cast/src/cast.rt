//! The actors of a run: each with its script and its port.
ghost use Rattle.std.specs.Prelude.{◌≡◌, ◌+◌, ◌<◌, ◌≤◌, false, IfOk, OnOk, length, take};
ghost use Rattle.thr_trip.specs.Core.{actor_count};
ghost use Rattle.thr_trip.specs.PortTable.All.{told_words, told_root};
ghost use Rattle.thr_trip.specs.PortTable.Told.{words_at};
ghost use Rattle.thr_trip.specs.Script.{all_vcpus};
ghost use Rattle.thr_cast.specs.Set.{IsSet};
ghost use Rattle.thr_cast.specs.Split.{SplitTo};

use crate::scripts::{device_script, vcpu_script};
use guest_end::{Actor, Scenario, opening_cpu};
use std::alloc::{AllocError, Global};
use thr_trip::{
    DeviceRun, Naming, RootSeat, SharedWords, Shelved, Trip, port_table_split as split,
};

/// The vCPUs, in the order of guest and number, and the devices, each with its script and its port.
#[derive(Drop)]
pub struct Cast<'a, J: Naming> {
    pub trips: Vec<Trip<'a, J>>,
    pub devices: Vec<DeviceRun<'a, J>>,
}

/// The next vCPU of a guest, which was not split off yet, with its place among all.
fn vcpu_of<'a, J: Naming>(
    alloc: Global,
    words: &'a SharedWords,
    root: &mut RootSeat,
    scenario: &Scenario,
    guest: u32,
    vcpu: u32,
    place: u32,
) -> Result<Trip<'a, J>, AllocError>
    requires words { told_words words.now ≡ J.words }
    requires steps { scenario.now.steps ≡ J.steps }
    requires lrs { scenario.now.lrs ≡ J.lrs }
    requires set { IsSet scenario.now J.words }
    requires root { SplitTo J.words (told_root root.old) guest vcpu }
    requires guest { guest < length J.words }
    requires there { vcpu < (words_at J.words guest).guest.shape.vcpus }
    requires place { place ≡ length (all_vcpus (take guest J.words)) + vcpu }
    ensures root { OnOk result (SplitTo J.words (told_root root.new) guest (vcpu + 1)) }
    ensures place { IfOk result (λ trip. trip.place ≡ place) }
{
    let script = vcpu_script(alloc, scenario.steps.as_slice(), guest, vcpu)?;
    let port = split(words, root, Actor::Vcpu { guest, vcpu });
    let shelved = Shelved {
        guest,
        vcpu,
        cpu: opening_cpu(scenario.guests.as_slice()[guest as usize].on),
        next: 0,
    };
    Trip::new(alloc, shelved, place, script, port)
}

/// The next device of a guest, which was not split off yet.
fn device_of<'a, J: Naming>(
    alloc: Global,
    words: &'a SharedWords,
    root: &mut RootSeat,
    scenario: &Scenario,
    guest: u32,
    device: u32,
) -> Result<DeviceRun<'a, J>, AllocError>
    requires words { told_words words.now ≡ J.words }
    requires steps { scenario.now.steps ≡ J.steps }
    requires set { IsSet scenario.now J.words }
    requires root { SplitTo J.words (told_root root.old) guest ((words_at J.words guest).guest.shape.vcpus + device) }
    requires guest { guest < length J.words }
    requires there { device < (words_at J.words guest).guest.shape.devices }
    ensures root { OnOk result (SplitTo J.words (told_root root.new) guest ((words_at J.words guest).guest.shape.vcpus + device + 1)) }
    ensures name { IfOk result (λ run. (run.guest ≡ guest) × (run.device ≡ device)) }
    ensures fresh { IfOk result (λ run. run.done ≡ false) }
{
    let script = device_script(alloc, scenario.steps.as_slice(), guest, device)?;
    let port = split(words, root, Actor::Device { guest, device });
    Ok(DeviceRun::new(guest, device, port, script))
}

impl<'a, J: Naming> Cast<'a, J> {
    ghost use Rattle.std.specs.Prelude.{[]};
    ghost use Rattle.thr_cast.specs.Cast.{HasCast, first_devices};

    /// The vCPUs of a guest join.
    fn add_vcpus(
        &mut self,
        alloc: Global,
        words: &'a SharedWords,
        root: &mut RootSeat,
        scenario: &Scenario,
        guest: u32,
    ) -> Result<(), AllocError>
        requires words { told_words words.now ≡ J.words }
        requires steps { scenario.now.steps ≡ J.steps }
        requires lrs { scenario.now.lrs ≡ J.lrs }
        requires set { IsSet scenario.now J.words }
        requires root { SplitTo J.words (told_root root.old) guest 0 }
        requires guest { guest < length J.words }
        requires cast { HasCast J.words self.old guest 0 [] }
        ensures root { OnOk result (SplitTo J.words (told_root root.new) guest (words_at J.words guest).guest.shape.vcpus) }
        ensures cast { OnOk result (HasCast J.words self.new guest (words_at J.words guest).guest.shape.vcpus []) }
    {
        let vcpus = scenario.guests.as_slice()[guest as usize].shape.vcpus;
        for vcpu in 0..vcpus {
            let place = self.trips.len() as u32;
            let trip = vcpu_of(alloc, words, root, scenario, guest, vcpu, place)?;
            self.trips.push(trip)?;
        }
        Ok(())
    }

    /// The devices of a guest join, the vCPUs of which are there.
    fn add_devices(
        &mut self,
        alloc: Global,
        words: &'a SharedWords,
        root: &mut RootSeat,
        scenario: &Scenario,
        guest: u32,
    ) -> Result<(), AllocError>
        requires words { told_words words.now ≡ J.words }
        requires steps { scenario.now.steps ≡ J.steps }
        requires set { IsSet scenario.now J.words }
        requires root { SplitTo J.words (told_root root.old) guest (words_at J.words guest).guest.shape.vcpus }
        requires guest { guest < length J.words }
        requires cast { HasCast J.words self.old guest (words_at J.words guest).guest.shape.vcpus [] }
        ensures root { OnOk result (SplitTo J.words (told_root root.new) guest (actor_count (words_at J.words guest).guest.shape)) }
        ensures cast { OnOk result (HasCast J.words self.new guest (words_at J.words guest).guest.shape.vcpus (first_devices guest (words_at J.words guest).guest.shape.devices)) }
    {
        let devices = scenario.guests.as_slice()[guest as usize].shape.devices;
        for device in 0..devices {
            let run = device_of(alloc, words, root, scenario, guest, device)?;
            self.devices.push(run)?;
        }
        Ok(())
    }

    /// All actors of a scenario. An error where memory for their scripts is refused.
    pub fn of(
        alloc: Global,
        words: &'a SharedWords,
        root: &mut RootSeat,
        scenario: &Scenario,
    ) -> Result<Self, AllocError>
        requires words { told_words words.now ≡ J.words }
        requires steps { scenario.now.steps ≡ J.steps }
        requires lrs { scenario.now.lrs ≡ J.lrs }
        requires set { IsSet scenario.now J.words }
        requires root { SplitTo J.words (told_root root.old) 0 0 }
        ensures root { OnOk result (SplitTo J.words (told_root root.new) (length J.words) 0) }
        ensures cast { IfOk result (λ cast. HasCast J.words cast (length J.words) 0 []) }
    {
        let mut cast = Cast {
            trips: Vec::new(alloc),
            devices: Vec::new(alloc),
        };
        for guest in 0..scenario.guests.len() as u32 {
            cast.add_vcpus(alloc, words, root, scenario, guest)?;
            cast.add_devices(alloc, words, root, scenario, guest)?;
        }
        Ok(cast)
    }
}
