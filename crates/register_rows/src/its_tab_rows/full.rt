//! Tables with all that a guest can map.
use super::LPIS;
use floor_registers::{Command, FIRST_LPI, GuestShape, ItsTables, NoMemory};

/// A guest with as many LPIs as there can be.
const SHAPE: GuestShape = GuestShape {
    vcpus: 1,
    spis: 32,
    espis: 0,
    devices: 1,
    lpis: LPIS,
    ram: 65536,
};

/// Does a command, if it has no fault. Whether it has none.
fn does(tables: &mut ItsTables, command: &Command) -> bool {
    let is_good = tables.fault_in(command, &SHAPE).is_none();
    if is_good {
        tables.carry_out(command, &SHAPE);
    }
    is_good
}

/// MAPD of a device with 2 to the 12th events, or with V = 0.
fn mapd(device: u32, valid: bool) -> Command {
    Command::Mapd {
        device,
        size: 11,
        itt_addr: 0,
        valid,
    }
}

/// MAPTI of an event onto the LPI of a number from 0, in collection 0.
fn mapti(device: u32, event: u32, number: u32) -> Command {
    Command::Mapti {
        device,
        event,
        id: FIRST_LPI.wrapping_add(number),
        icid: 0,
    }
}

/// MAPC of collection 0 to vCPU 0.
const MAPC: Command = Command::Mapc {
    icid: 0,
    rdbase: 0,
    valid: true,
};

#[test]
fn all_events_of_one_device(rt: HostRuntime) -> Result<(), NoMemory> {
    let mut tables = ItsTables::of(rt.alloc())?;
    assert!(rt; does(&mut tables, &mapd(7, true)) && does(&mut tables, &MAPC));
    for event in 0..LPIS {
        assert!(rt;
            does(
                &mut tables,
                &mapti(7, event, (LPIS - 1).wrapping_sub(event))
            )
        );
    }
    assert!(rt; !does(&mut tables, &mapti(7, 0, 1)));
    assert_eq!(rt; tables.events(rt.alloc())?.len(), 4096);
    assert!(rt; does(&mut tables, &mapd(7, false)));
    assert_eq!(rt; tables.events(rt.alloc())?.len(), 0);
    assert_eq!(rt; tables.next_lpi(0), None);
    Ok(())
}

#[test]
fn an_event_of_each_device(rt: HostRuntime) -> Result<(), NoMemory> {
    let mut tables = ItsTables::of(rt.alloc())?;
    assert!(rt; does(&mut tables, &MAPC));
    for number in 0..LPIS {
        let device = 65535u32.wrapping_sub(number);
        assert!(rt;
            does(&mut tables, &mapd(device, true)) && does(&mut tables, &mapti(device, 5, number))
        );
    }
    assert_eq!(rt; tables.events(rt.alloc())?.len(), 4096);
    for number in 0..LPIS {
        assert!(rt; does(&mut tables, &mapd(65535u32.wrapping_sub(number), false)));
    }
    assert_eq!(rt; tables.events(rt.alloc())?.len(), 0);
    assert_eq!(rt; tables.devices(rt.alloc())?.len(), 0);
    Ok(())
}

#[test]
fn all_collections(rt: HostRuntime) -> Result<(), NoMemory> {
    let mut tables = ItsTables::of(rt.alloc())?;
    for icid in 0..=u16::MAX {
        let command = Command::Mapc {
            icid,
            rdbase: 0,
            valid: true,
        };
        assert!(rt; does(&mut tables, &command));
    }
    assert_eq!(rt; tables.collections(rt.alloc())?.len(), 65536);
    Ok(())
}
