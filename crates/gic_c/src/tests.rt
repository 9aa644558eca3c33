//! The functions as C calls them: what they return, and what they show.

use crate::answer::RvDone;
use crate::handle::RvMachine;
use crate::open::RvSpec;
use crate::{
    rv_abi, rv_create, rv_destroy, rv_feed, rv_lines, rv_message, rv_mmio, rv_msi, rv_reset,
    rv_reset_vcpu, rv_restore, rv_save, rv_sysreg, rv_wire,
};
use std::alloc::Global;
use std::process::Abort;
use std::test::Fail;

const EINVAL: i32 = -22;

const ENOENT: i32 = -2;

const EACCES: i32 = -13;

const ERANGE: i32 = -34;

const READ: u32 = 0;

const WRITE: u32 = 1;

const DIST: u64 = 0x0800_0000;

const ITS: u64 = 0x0808_0000;

const REDIST: u64 = 0x080A_0000;
/// The guest's command queue of a page, and its table of LPIs, of 14 bits of INTIDs.
const QUEUE: u64 = 0x4_0000_0000;

const TABLE: u64 = 0x5_0000_0000;
/// The numbers of system registers.
const PMR: u32 = 0xC230;

const IAR1: u32 = 0xC660;

const IGRPEN1: u32 = 0xC667;

/// Two vCPUs, SPIs 32 to 63, LPIs 8192 to 8207.
const SPEC: RvSpec = RvSpec {
    size: 64,
    vcpus: 2,
    spis: 32,
    espis: 0,
    lpis: 16,
    reserved0: 0,
    dist: DIST,
    redist: REDIST,
    its: ITS,
    reserved1: 0,
    reserved2: 0,
};

/// What a call shows that changes nothing.
const ZEROS: RvDone = RvDone {
    value: 0,
    changed: 0,
    reserved: 0,
    address: 0,
    length: 0,
};

/// What vCPU 0 writes so that it takes SPI 40, and LPIs once they are mapped: its address and its bytes.
const START: [(u64, u32, u64); 7] = [
    (DIST, 4, 2),
    (DIST + 0x84, 4, 0x100),
    (DIST + 0x104, 4, 0x100),
    (REDIST + 0x70, 8, TABLE + 0xD),
    (REDIST + 0x78, 8, 1 << 62),
    (REDIST, 4, 1),
    (ITS + 0x80, 8, (1 << 63) + QUEUE),
];

/// MAPD of device 8, MAPC of collection 0 to vCPU 0, MAPTI of event 3 to INTID 8195.
const COMMANDS: [u64; 12] = [
    (8 << 32) + 8,
    3,
    1 << 63,
    0,
    9,
    0,
    1 << 63,
    0,
    (8 << 32) + 10,
    (8195 << 32) + 3,
    0,
    0,
];

/// A machine after START, with the ITS enabled.
fn started(rt: &impl Abort, alloc: Global) -> RvMachine {
    let mut machine = RvMachine::closed(alloc);
    assert_eq!(rt; rv_create(alloc, &SPEC, &mut machine), 0);
    for (address, size, value) in START {
        assert_eq!(rt;
            write(alloc, &mut machine, address, size, value),
            (0, ZEROS)
        );
    }
    assert_eq!(rt; write(alloc, &mut machine, ITS, 4, 1), (0, ZEROS));
    for (register, value) in [(PMR, 0xF0), (IGRPEN1, 1)] {
        let mut done = ZEROS;
        let status = rv_sysreg(alloc, &mut machine, 0, register, WRITE, value, &mut done);
        assert_eq!(rt; (status, done), (0, ZEROS));
    }
    machine
}

/// vCPU 0 writes so many bytes at an address.
fn write(
    alloc: Global,
    machine: &mut RvMachine,
    address: u64,
    size: u32,
    value: u64,
) -> (i32, RvDone) {
    let mut done = ZEROS;
    let status = rv_mmio(alloc, machine, 0, address, size, WRITE, value, &mut done);
    (status, done)
}

/// The commands as bytes.
fn bytes() -> [u8; 96] {
    let mut bytes = [0; 96];
    for (number, word) in COMMANDS.iter().enumerate() {
        for (place, byte) in word.to_le_bytes().iter().enumerate() {
            bytes[8 * number + place] = *byte;
        }
    }
    bytes
}

/// What a call shows that asks for bytes.
fn asked(address: u64, length: u64) -> RvDone {
    RvDone {
        address,
        length,
        ..ZEROS
    }
}

#[test]
fn a_device_is_served(rt: HostRuntime) -> Result<(), Fail> {
    let alloc = rt.alloc();
    let mut machine = started(&rt, alloc);
    assert_eq!(rt; rv_abi(), 1);
    let mut done = ZEROS;
    assert_eq!(rt; rv_wire(alloc, &mut machine, 40, 0, 1, &mut done), 0);
    assert_eq!(rt;
        done,
        RvDone {
            changed: 1,
            ..ZEROS
        }
    );
    assert_eq!(rt; rv_lines(alloc, &mut machine, 0), 1);
    assert_eq!(rt;
        rv_sysreg(alloc, &mut machine, 0, IAR1, READ, 0, &mut done),
        0
    );
    assert_eq!(rt;
        done,
        RvDone {
            value: 40,
            changed: 1,
            ..ZEROS
        }
    );
    assert_eq!(rt; rv_lines(alloc, &mut machine, 0), 0);
    assert_eq!(rt; rv_reset_vcpu(alloc, &mut machine, 0, &mut done), 0);
    assert_eq!(rt; rv_reset(alloc, &mut machine, &mut done), 0);
    assert_eq!(rt; rv_message(alloc, &mut machine, 40, &mut done), 0);
    assert_eq!(rt; done, ZEROS);
    assert_eq!(rt; rv_destroy(alloc, &mut machine), 0);
    assert_eq!(rt; rv_destroy(alloc, &mut machine), EINVAL);
    assert_eq!(rt; rv_lines(alloc, &mut machine, 0), EINVAL);
    Ok(())
}

#[test]
fn commands_are_fed_range_by_range(rt: HostRuntime) -> Result<(), Fail> {
    let alloc = rt.alloc();
    let mut machine = started(&rt, alloc);
    let cwriter = ITS + 0x88;
    let mut done = ZEROS;
    assert_eq!(rt;
        write(alloc, &mut machine, cwriter, 8, 0x60),
        (1, asked(QUEUE, 0x60))
    );
    assert_eq!(rt; rv_feed(alloc, &mut machine, &[0; 32]), EINVAL);
    assert_eq!(rt; rv_feed(alloc, &mut machine, &bytes()), 0);
    assert_eq!(rt;
        write(alloc, &mut machine, cwriter, 8, 0x60),
        (1, asked(TABLE, 16))
    );
    // Another call drops what was fed.
    assert_eq!(rt; rv_lines(alloc, &mut machine, 0), 0);
    assert_eq!(rt; rv_feed(alloc, &mut machine, &[0xA1; 16]), EINVAL);
    assert_eq!(rt;
        write(alloc, &mut machine, cwriter, 8, 0x60),
        (1, asked(QUEUE, 0x60))
    );
    assert_eq!(rt; rv_feed(alloc, &mut machine, &bytes()), 0);
    assert_eq!(rt;
        write(alloc, &mut machine, cwriter, 8, 0x60),
        (1, asked(TABLE, 16))
    );
    assert_eq!(rt; rv_feed(alloc, &mut machine, &[0xA1; 16]), 0);
    // vCPU 1 has a table at 0.
    assert_eq!(rt;
        write(alloc, &mut machine, cwriter, 8, 0x60),
        (1, asked(0, 16))
    );
    assert_eq!(rt; rv_feed(alloc, &mut machine, &[0; 16]), 0);
    assert_eq!(rt; write(alloc, &mut machine, cwriter, 8, 0x60), (0, ZEROS));
    assert_eq!(rt; rv_feed(alloc, &mut machine, &[0; 16]), EINVAL);
    assert_eq!(rt; rv_msi(alloc, &mut machine, 8, 3, &mut done), 0);
    assert_eq!(rt;
        done,
        RvDone {
            changed: 1,
            ..ZEROS
        }
    );
    assert_eq!(rt;
        rv_sysreg(alloc, &mut machine, 0, IAR1, READ, 0, &mut done),
        0
    );
    assert_eq!(rt;
        done,
        RvDone {
            value: 8195,
            changed: 1,
            ..ZEROS
        }
    );
    assert_eq!(rt; rv_destroy(alloc, &mut machine), 0);
    Ok(())
}

#[test]
fn arguments_are_tested(rt: HostRuntime) -> Result<(), Fail> {
    let alloc = rt.alloc();
    let mut machine = started(&rt, alloc);
    let mut done = ZEROS;
    assert_eq!(rt; rv_create(alloc, &SPEC, &mut machine), EINVAL);
    assert_eq!(rt;
        rv_mmio(alloc, &mut machine, 2, DIST, 4, READ, 0, &mut done),
        EINVAL
    );
    assert_eq!(rt;
        rv_mmio(alloc, &mut machine, 0, DIST, 3, READ, 0, &mut done),
        EINVAL
    );
    assert_eq!(rt;
        rv_mmio(alloc, &mut machine, 0, DIST, 4, 2, 0, &mut done),
        EINVAL
    );
    assert_eq!(rt;
        rv_mmio(alloc, &mut machine, 0, 0, 4, READ, 0, &mut done),
        ENOENT
    );
    assert_eq!(rt;
        rv_sysreg(alloc, &mut machine, 0, IAR1, WRITE, 0, &mut done),
        EACCES
    );
    assert_eq!(rt; rv_wire(alloc, &mut machine, 40, 0, 2, &mut done), EINVAL);
    assert_eq!(rt; rv_wire(alloc, &mut machine, 8195, 0, 1, &mut done), ENOENT);
    assert_eq!(rt; rv_feed(alloc, &mut machine, &[0; 32]), EINVAL);
    assert_eq!(rt; done, ZEROS);
    assert_eq!(rt; rv_destroy(alloc, &mut machine), 0);
    Ok(())
}

/// Room that is enough for the image of a machine with two vCPUs of which little is not as it opened.
const ROOM: usize = 8192;

#[test]
fn a_machine_goes_on_as_another(rt: HostRuntime) -> Result<(), Fail> {
    let alloc = rt.alloc();
    let mut machine = started(&rt, alloc);
    let mut other = RvMachine::closed(alloc);
    let mut done = ZEROS;
    assert_eq!(rt; rv_wire(alloc, &mut machine, 40, 0, 1, &mut done), 0);
    let mut room = [0; ROOM];
    let mut needed = 0;
    assert_eq!(rt; rv_save(alloc, &mut other, &mut room, &mut needed), EINVAL);
    assert_eq!(rt;
        rv_save(alloc, &mut machine, &mut room[..100], &mut needed),
        ERANGE
    );
    assert!(rt; needed > 100 && needed <= ROOM as u64);
    assert_eq!(rt; room[0], 0);
    assert_eq!(rt; rv_save(alloc, &mut machine, &mut room, &mut needed), 0);
    let bytes = room.get(..needed as usize).unwrap_or(&[]);
    assert_eq!(rt; rv_restore(alloc, &mut other, bytes, &mut done), EINVAL);
    assert_eq!(rt; rv_create(alloc, &SPEC, &mut other), 0);
    assert_eq!(rt; rv_restore(alloc, &mut other, b"{}", &mut done), EINVAL);
    assert_eq!(rt; done, ZEROS);
    assert_eq!(rt; rv_restore(alloc, &mut other, bytes, &mut done), 0);
    assert_eq!(rt;
        done,
        RvDone {
            changed: 1,
            ..ZEROS
        }
    );
    assert_eq!(rt; rv_lines(alloc, &mut other, 0), 1);
    assert_eq!(rt;
        rv_sysreg(alloc, &mut other, 0, IAR1, READ, 0, &mut done),
        0
    );
    assert_eq!(rt; done.value, 40);
    assert_eq!(rt; rv_destroy(alloc, &mut machine), 0);
    assert_eq!(rt; rv_destroy(alloc, &mut other), 0);
    Ok(())
}
