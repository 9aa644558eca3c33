//! The tables of an ITS.
ghost use Rattle.std.specs.Prelude.{◌≡◌, ◌≢◌, ◌≤◌, ◌<◌, ◌↔◌, ℕ, [], IsTrue, IsSome, IfSome, IfNone, OnSome, IfOk, Some, None, Contains};
ghost use Rattle.std.specs.List.Sorted.{IsStrictlyIncreasing};
ghost use Rattle.its_cmd.specs.Words.{GuestShape};
ghost use Rattle.its_tab.specs.After.{IsValid};

use its_cmd::{MAX_LPIS, NoMemory};
use sorted_pairs::{first_from, get, put, take};
use std::alloc::{AllocError, Global};
use std::collections::VecDeque;
use std::marker::Model;

/// How many DeviceIDs and how many ICIDs there are: each has 16 bits.
const NUMBERS: usize = 1 << 16;

/// The tables of an ITS, as three finite maps (IHI 0069, "The ITS tables"): a DeviceID has its number of
/// EventID bits, an event (a DeviceID and an EventID) its INTID and its collection, and a collection its
/// vCPU. No two events have one INTID, and each event's device is mapped. There is room for all that can be mapped from the first on, so
/// none of the calls asks for memory; a call makes O(log n) comparisons, and moves one block of a table at most, of at most half of it.
#[derive(Drop)]
pub struct ItsTables {
    devices: VecDeque<(u32, u32)>,
    events: VecDeque<((u32, u32), (u32, u16))>,
    collections: VecDeque<(u16, u32)>,
    // The event of each INTID that one has.
    owners: VecDeque<(u32, (u32, u32))>,
}

impl Model for ItsTables {
    ghost use Rattle.std.specs.VecDeque.{deque_capacity};
    ghost use Rattle.its_tab.specs.Maps.{Maps};
    ghost use Rattle.its_tab.specs.Room.{IsKept};

    ghost Value = { Maps };

    ghost view = { λ t. record { devices = t.devices.items; events = t.events.items; collections = t.collections.items } };

    ghost invariant = { λ t. IsKept t.owners.items (record { devices = t.devices.items; events = t.events.items; collections = t.collections.items }) (record { devices = deque_capacity t.devices; events = deque_capacity t.events; collections = deque_capacity t.collections; owners = deque_capacity t.owners }) };
}

impl ItsTables {
    ghost use Rattle.its_tab.specs.Maps.{bits_of as device_bits, pair_of, id_of, target_of as collection_target, owner_of as owner_in, first_event as first_event_in, with_device, with_event, with_collection, without_device, without_event, without_collection};
    ghost use Rattle.its_tab.specs.Room.{IsLpi};
    ghost use Rattle.its_tab.specs.Collection.{collection_of as collection_in, has_target as has_target_in};
    ghost use Rattle.its_tab.specs.After.{recollected};

    /// Tables in which nothing is mapped, with room for all that a guest can map: each DeviceID and each ICID of 16 bits, and an event for
    /// each of 4,096 LPIs. That is a little more than a megabyte, of which nothing is touched before it is used. `NoMemory` exactly where it
    /// is refused.
    pub fn of(alloc: Global) -> Result<ItsTables, NoMemory>
        ensures value { IfOk result (λ tables. tables ≡ record { devices = []; events = []; collections = [] }) }
        ensures valid { IfOk result (λ tables. (shape : GuestShape) → IsValid shape tables) }
    {
        Ok(ItsTables {
            devices: VecDeque::with_capacity(alloc, NUMBERS)?,
            events: VecDeque::with_capacity(alloc, MAX_LPIS as usize)?,
            collections: VecDeque::with_capacity(alloc, NUMBERS)?,
            owners: VecDeque::with_capacity(alloc, MAX_LPIS as usize)?,
        })
    }

    /// Unmaps all; the room stays.
    pub fn clear(&mut self)
        ensures { self.new ≡ record { devices = []; events = []; collections = [] } }
    {
        self.devices.clear();
        self.events.clear();
        self.collections.clear();
        self.owners.clear();
    }

    /// Maps a device with this number of EventID bits, which replace an older number.
    pub fn map_device(&mut self, device: u32, bits: u32)
        requires range { device < 65536 }
        ensures { self.new ≡ with_device self.old device bits }
    {
        put(&mut self.devices, device, bits);
    }

    /// Maps an event of a mapped device to an LPI that no other event has, and to a collection; an older
    /// pair of the event is replaced.
    pub fn map_event(&mut self, device: u32, event: u32, id: u32, icid: u16)
        requires mapped { IsSome (device_bits self.old device) }
        requires free { IfSome (owner_in self.old id) (λ owner. owner ≡ (device, event)) }
        requires lpi { IsLpi id }
        ensures { self.new ≡ with_event self.old (device, event) (id, icid) }
    {
        let older = get(&self.events, (device, event));
        put(&mut self.owners, id, (device, event));
        put(&mut self.events, (device, event), (id, icid));
        if let Some((older, _)) = older {
            if older != id {
                take(&mut self.owners, older);
            }
        }
    }

    /// Gives an event that is mapped another collection, and keeps its INTID. Nothing happens where it is not
    /// mapped.
    pub(crate) fn move_event(&mut self, device: u32, event: u32, icid: u16)
        ensures { self.new ≡ recollected self.old (device, event) icid (pair_of self.old (device, event)) }
    {
        if let Some((id, _)) = get(&self.events, (device, event)) {
            self.map_event(device, event, id, icid);
        }
    }

    /// Maps a collection to a vCPU, which replaces an older one.
    pub fn map_collection(&mut self, icid: u16, vcpu: u32)
        ensures { self.new ≡ with_collection self.old icid vcpu }
    {
        put(&mut self.collections, icid, vcpu);
    }

    /// Unmaps a device of which no event is mapped. Nothing happens where it is not mapped.
    pub fn unmap_device(&mut self, device: u32)
        requires { first_event_in self.old device ≡ None }
        ensures value { self.new ≡ without_device self.old device }
        ensures unmapped { IfNone (device_bits self.old device) (self.new ≡ self.old) }
    {
        take(&mut self.devices, device);
    }

    /// Unmaps an event. Nothing happens where it is not mapped.
    pub fn unmap_event(&mut self, device: u32, event: u32)
        ensures value { self.new ≡ without_event self.old (device, event) }
        ensures unmapped { IfNone (pair_of self.old (device, event)) (self.new ≡ self.old) }
    {
        if let Some((id, _)) = take(&mut self.events, (device, event)) {
            take(&mut self.owners, id);
        }
    }

    /// Unmaps a collection. Nothing happens where it is not mapped.
    pub fn unmap_collection(&mut self, icid: u16)
        ensures value { self.new ≡ without_collection self.old icid }
        ensures unmapped { IfNone (collection_target self.old icid) (self.new ≡ self.old) }
    {
        take(&mut self.collections, icid);
    }

    /// The INTID and the collection of an event. None exactly where it is not mapped.
    pub fn find(&self, device: u32, event: u32) -> Option<(u32, u16)>
        ensures value { result ≡ pair_of self.now (device, event) }
        ensures mapped { OnSome result (IsSome (device_bits self.now device)) }
    {
        get(&self.events, (device, event))
    }

    /// The number of EventID bits of a device. None exactly where it is not mapped.
    pub fn bits_of(&self, device: u32) -> Option<u32>
        ensures { result ≡ device_bits self.now device }
    {
        get(&self.devices, device)
    }

    /// The vCPU of a collection. None exactly where it is not mapped.
    pub fn target_of(&self, icid: u16) -> Option<u32>
        ensures { result ≡ collection_target self.now icid }
    {
        get(&self.collections, icid)
    }

    /// The device and the event that have an INTID. None exactly where no event has it.
    pub fn owner_of(&self, id: u32) -> Option<(u32, u32)>
        ensures value { result ≡ owner_in self.now id }
        ensures found { IfSome result (λ owner. id_of self.now owner ≡ Some id) }
        ensures only { IfSome result (λ owner. (event : ℕ × ℕ) → id_of self.now event ≡ Some id → event ≡ owner) }
        ensures none { IfNone result ((event : ℕ × ℕ) → id_of self.now event ≢ Some id) }
    {
        get(&self.owners, id)
    }

    /// The collection of an LPI: that of the event that has its INTID. None exactly where no event has it.
    pub fn collection_of(&self, id: u32) -> Option<u16>
        ensures { result ≡ collection_in self.now id }
    {
        let (device, event) = self.owner_of(id)?;
        let (_, icid) = self.find(device, event)?;
        Some(icid)
    }

    /// Whether an LPI has a target: whether its collection is mapped.
    pub fn has_target(&self, id: u32) -> bool
        ensures { result ≡ has_target_in self.now id }
    {
        self.collection_of(id)
            .and_then(|icid| self.target_of(icid))
            .is_some()
    }

    /// The INTIDs of the LPIs of a collection, each once and in rising order.
    pub fn lpis_of(&self, alloc: Global, icid: u16) -> Result<Vec<u32>, AllocError>
        ensures rising { IfOk result (λ ids. IsStrictlyIncreasing ids.items) }
        ensures exactly { IfOk result (λ ids. (id : ℕ) → Contains ids.items id ↔ (collection_in self.now id ≡ Some icid)) }
    {
        let mut ids = Vec::new(alloc);
        for pair in &self.owners {
            let id = pair.0;
            if self.collection_of(id) == Some(icid) {
                ids.push(id)?;
            }
        }
        Ok(ids)
    }

    /// The INTIDs of the LPIs that have a target, each once and in rising order.
    pub fn lpis_with_target(&self, alloc: Global) -> Result<Vec<u32>, AllocError>
        ensures rising { IfOk result (λ ids. IsStrictlyIncreasing ids.items) }
        ensures exactly { IfOk result (λ ids. (id : ℕ) → Contains ids.items id ↔ IsTrue (has_target_in self.now id)) }
    {
        let mut ids = Vec::new(alloc);
        for pair in &self.owners {
            let id = pair.0;
            if self.has_target(id) {
                ids.push(id)?;
            }
        }
        Ok(ids)
    }

    /// The least INTID from `from` that an event has. None exactly where no event has one.
    pub fn next_lpi(&self, from: u32) -> Option<u32>
        ensures found { IfSome result (λ id. IsSome (owner_in self.now id)) }
        ensures least { IfSome result (λ id. (from ≤ id) × ((other : ℕ) → from ≤ other → IsSome (owner_in self.now other) → id ≤ other)) }
        ensures none { IfNone result ((other : ℕ) → from ≤ other → owner_in self.now other ≡ None) }
    {
        let (id, _) = first_from(&self.owners, from)?;
        Some(id)
    }

    /// The devices that are mapped, in rising DeviceID, each with the number of its EventID bits.
    pub fn devices(&self, alloc: Global) -> Result<Vec<(u32, u32)>, AllocError>
        ensures { IfOk result (λ pairs. pairs.items ≡ self.now.devices) }
    {
        let mut pairs = Vec::new(alloc);
        for pair in &self.devices {
            pairs.push(*pair)?;
        }
        Ok(pairs)
    }

    /// The events that are mapped, in rising DeviceID and then EventID, each with its INTID and its collection.
    pub fn events(&self, alloc: Global) -> Result<Vec<((u32, u32), (u32, u16))>, AllocError>
        ensures { IfOk result (λ pairs. pairs.items ≡ self.now.events) }
    {
        let mut pairs = Vec::new(alloc);
        for pair in &self.events {
            pairs.push(*pair)?;
        }
        Ok(pairs)
    }

    /// The collections that are mapped, in rising ICID, each with its vCPU.
    pub fn collections(&self, alloc: Global) -> Result<Vec<(u16, u32)>, AllocError>
        ensures { IfOk result (λ pairs. pairs.items ≡ self.now.collections) }
    {
        let mut pairs = Vec::new(alloc);
        for pair in &self.collections {
            pairs.push(*pair)?;
        }
        Ok(pairs)
    }

    /// The least event of a device. None exactly where no event of it is mapped.
    pub fn first_event(&self, device: u32) -> Option<u32>
        ensures value { result ≡ first_event_in self.now device }
        ensures found { IfSome result (λ event. IsSome (pair_of self.now (device, event))) }
        ensures least { IfSome result (λ event. (other : ℕ) → IsSome (pair_of self.now (device, other)) → event ≤ other) }
        ensures none { IfNone result ((event : ℕ) → pair_of self.now (device, event) ≡ None) }
    {
        let (event, _) = first_from(&self.events, (device, 0))?;
        (event.0 == device).then_some(event.1)
    }
}
