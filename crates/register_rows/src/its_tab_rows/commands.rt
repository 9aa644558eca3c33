//! Commands that have a fault, and good ones that are carried out.
use super::tables;
use floor_registers::{Command, GuestShape, NoMemory};

/// A guest of two vCPUs, with 16 LPIs.
const SHAPE: GuestShape = GuestShape {
    vcpus: 2,
    spis: 32,
    espis: 0,
    devices: 1,
    lpis: 16,
    ram: 65536,
};

const VALID: u64 = 1 << 63;

const DEVICE_8: u64 = 8 << 32;

const DEVICE_9: u64 = 9 << 32;

const LPI_8195: u64 = 8195 << 32;

/// The doublewords of a command and the number of its fault.
const FAULTS: [([u64; 4], Option<u8>); 33] = [
    // MAPD
    ([0x08 + DEVICE_8, 4, VALID + 0x2000, 0], None),
    ([0x08 + DEVICE_9, 15, VALID, 0], None),
    ([0x08 + (65535 << 32), 15, VALID, 0], None),
    ([0x08 + (65536 << 32), 15, VALID, 0], Some(1)),
    ([0x08 + (65536 << 32), 16, VALID, 0], Some(1)),
    ([0x08 + DEVICE_8, 16, VALID, 0], Some(2)),
    ([0x08 + DEVICE_8, 16, 0, 0], None),
    // MAPC
    ([0x09, 0, VALID + 0x10001, 0], None),
    ([0x09, 0, VALID + 0x20001, 0], Some(8)),
    ([0x09, 0, 0x20001, 0], None),
    ([0x7f, 0, VALID + 0x10001, 0], Some(10)),
    // MAPTI: its own INTID again, another's, and one past the last LPI
    ([0x0a + DEVICE_8, LPI_8195 + 3, 1, 0], None),
    ([0x0a + DEVICE_8, LPI_8195 + 5, 1, 0], Some(6)),
    ([0x0a + DEVICE_8, (8207 << 32) + 5, 1, 0], None),
    ([0x0a + DEVICE_8, (8208 << 32) + 5, 1, 0], Some(6)),
    ([0x0a + DEVICE_8, LPI_8195 + 0x1f, 1, 0], Some(6)),
    ([0x0a + DEVICE_8, LPI_8195 + 0x20, 1, 0], Some(4)),
    ([0x0a + DEVICE_8, LPI_8195 + 3, 2, 0], Some(7)),
    ([0x0a + DEVICE_9, LPI_8195 + 0x20, 2, 0], Some(3)),
    // MAPI
    ([0x0b + DEVICE_8, 3, 1, 0], Some(6)),
    // MOVI
    ([0x01 + DEVICE_8, 3, 1, 0], None),
    ([0x01 + DEVICE_8, 3, 2, 0], Some(7)),
    ([0x01 + DEVICE_8, 5, 2, 0], Some(5)),
    // INT, CLEAR, DISCARD and INV, of an event whose collection is not mapped
    ([0x03 + DEVICE_8, 3, 0, 0], None),
    ([0x03 + DEVICE_8, 4, 0, 0], Some(7)),
    ([0x04 + DEVICE_8, 4, 0, 0], None),
    ([0x0f + DEVICE_8, 5, 0, 0], Some(5)),
    ([0x0c + DEVICE_8, 4, 0, 0], Some(7)),
    // INVALL, MOVALL and SYNC
    ([0x0d, 0, 2, 0], Some(7)),
    ([0x0e, 0, 0x10000, 0], None),
    ([0x0e, 0, 0x10000, 0x20000], Some(8)),
    ([0x05, 0, 0x10000, 0], None),
    ([0x05, 0, 0x20000, 0], Some(8)),
];

#[test]
fn faults(rt: HostRuntime) -> Result<(), NoMemory> {
    let tables = tables(rt.alloc())?;
    for (words, number) in FAULTS {
        assert_eq!(rt; tables.fault_number(words, &SHAPE), number);
    }
    Ok(())
}

/// Good commands, one after the other.
const COMMANDS: [Command; 9] = [
    Command::Mapc {
        icid: 3,
        rdbase: 0,
        valid: true,
    },
    Command::Movi {
        device: 8,
        event: 3,
        icid: 3,
    },
    Command::Mapti {
        device: 8,
        event: 4,
        id: 8207,
        icid: 1,
    },
    Command::Discard {
        device: 8,
        event: 3,
    },
    Command::Mapti {
        device: 8,
        event: 5,
        id: 8195,
        icid: 3,
    },
    Command::Mapd {
        device: 9,
        size: 15,
        itt_addr: 0,
        valid: true,
    },
    Command::Mapi {
        device: 9,
        event: 8200,
        icid: 1,
    },
    Command::Mapc {
        icid: 1,
        rdbase: 7,
        valid: false,
    },
    Command::Sync { rdbase: 1 },
];

#[test]
fn carried_out(rt: HostRuntime) -> Result<(), NoMemory> {
    let mut tables = tables(rt.alloc())?;
    for command in COMMANDS {
        assert_eq!(rt; tables.fault_in(&command, &SHAPE), None);
        tables.carry_out(&command, &SHAPE);
    }
    assert_eq!(rt;
        tables.devices(rt.alloc())?.as_slice(),
        [(8, 5), (9, 16)].as_slice()
    );
    assert_eq!(rt;
        tables.events(rt.alloc())?.as_slice(),
        [
            ((8, 4), (8207, 1)),
            ((8, 5), (8195, 3)),
            ((8, 33), (8194, 1)),
            ((9, 8200), (8200, 1))
        ]
        .as_slice()
    );
    assert_eq!(rt;
        tables.collections(rt.alloc())?.as_slice(),
        [(3, 0)].as_slice()
    );
    Ok(())
}

#[test]
fn device_mapped_again(rt: HostRuntime) -> Result<(), NoMemory> {
    let mut tables = tables(rt.alloc())?;
    for (size, valid) in [(2, true), (31, false)] {
        let command = Command::Mapd {
            device: 8,
            size,
            itt_addr: 0,
            valid,
        };
        assert_eq!(rt; tables.fault_in(&command, &SHAPE), None);
        tables.carry_out(&command, &SHAPE);
        assert_eq!(rt; tables.first_event(8), None);
        assert_eq!(rt; tables.owner_of(8195), None);
        assert_eq!(rt; tables.bits_of(8), valid.then_some(size + 1));
    }
    Ok(())
}
