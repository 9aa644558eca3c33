//! The tables of the ITS, and messages that are translated by them.
mod commands;
mod full;

use floor_registers::{FIRST_LPI, ItsTables, NoMemory};
use std::alloc::Global;

/// As many LPIs as a guest can have.
const LPIS: u32 = 4096;

/// Device 8 with 5 EventID bits. Its event 3 has INTID 8195 in collection 1, which is at vCPU 1; event 4 has 8196 in
/// collection 3, which is not mapped; and event 33, which is past the device's bits, has 8194 in collection 1.
fn tables(alloc: Global) -> Result<ItsTables, NoMemory> {
    let mut tables = ItsTables::of(alloc)?;
    tables.map_device(8, 5);
    tables.map_collection(1, 1);
    map_free(&mut tables, 3, 8195, 1);
    map_free(&mut tables, 4, 8196, 3);
    map_free(&mut tables, 33, 8194, 1);
    Ok(tables)
}

/// Maps an event of device 8 to an LPI, where that can be.
fn map_free(tables: &mut ItsTables, event: u32, id: u32, icid: u16) {
    let is_lpi = id >= FIRST_LPI && id - FIRST_LPI < LPIS;
    if is_lpi && tables.bits_of(8).is_some() && tables.owner_of(id).is_none() {
        tables.map_event(8, event, id, icid);
    }
}

#[test]
fn mapped_and_unmapped(rt: HostRuntime) -> Result<(), NoMemory> {
    let mut tables = ItsTables::of(rt.alloc())?;
    tables.map_device(8, 5);
    tables.map_collection(1, 1);
    assert_eq!(rt; tables.bits_of(8), Some(5));
    assert_eq!(rt; tables.bits_of(9), None);
    assert_eq!(rt; tables.target_of(1), Some(1));
    assert_eq!(rt; tables.first_event(8), None);
    assert_eq!(rt; tables.owner_of(8195), None);
    tables.map_event(8, 3, 8195, 1);
    assert_eq!(rt; tables.find(8, 3), Some((8195, 1)));
    assert_eq!(rt; tables.owner_of(8195), Some((8, 3)));
    assert_eq!(rt; tables.first_event(8), Some(3));
    tables.unmap_event(8, 3);
    assert_eq!(rt; tables.find(8, 3), None);
    assert_eq!(rt; tables.first_event(8), None);
    tables.unmap_device(8);
    tables.unmap_collection(1);
    assert_eq!(rt; tables.bits_of(8), None);
    assert_eq!(rt; tables.target_of(1), None);
    Ok(())
}

#[test]
fn lists(rt: HostRuntime) -> Result<(), NoMemory> {
    let mut tables = tables(rt.alloc())?;
    assert_eq!(rt; tables.collection_of(8196), Some(3));
    assert_eq!(rt; tables.collection_of(8197), None);
    assert_eq!(rt;
        tables.lpis_of(rt.alloc(), 1)?.as_slice(),
        [8194, 8195].as_slice()
    );
    assert_eq!(rt;
        tables.lpis_of(rt.alloc(), 3)?.as_slice(),
        [8196].as_slice()
    );
    assert_eq!(rt;
        tables.lpis_with_target(rt.alloc())?.as_slice(),
        [8194, 8195].as_slice()
    );
    assert_eq!(rt; tables.next_lpi(0), Some(8194));
    assert_eq!(rt; tables.next_lpi(8195), Some(8195));
    assert_eq!(rt; tables.next_lpi(8197), None);
    tables.map_collection(3, 0);
    assert_eq!(rt;
        tables.lpis_with_target(rt.alloc())?.as_slice(),
        [8194, 8195, 8196].as_slice()
    );
    tables.unmap_event(8, 3);
    assert_eq!(rt;
        tables.lpis_with_target(rt.alloc())?.as_slice(),
        [8194, 8196].as_slice()
    );
    Ok(())
}

/// A message's DeviceID and EventID, and its LPI.
const MESSAGES: [((u32, u32), Option<u32>); 6] = [
    ((8, 3), Some(8195)),
    // its collection is not mapped
    ((8, 4), None),
    // not mapped, past the device's 5 bits, and past them though it is mapped
    ((8, 5), None),
    ((8, 32), None),
    ((8, 33), None),
    // the device is not mapped
    ((9, 3), None),
];

#[test]
fn messages(rt: HostRuntime) -> Result<(), NoMemory> {
    let tables = tables(rt.alloc())?;
    for ((device, event), id) in MESSAGES {
        assert_eq!(rt; tables.translated(true, device, event), id);
        assert_eq!(rt; tables.translated(false, device, event), None);
    }
    Ok(())
}
