//! What a vCPU does to the ITS of the guest: it maps the events of the devices, or writes a register over and over.
ghost use Rattle.std.specs.Prelude.{◌≤◌, IsTrue};
ghost use Rattle.pe_its.specs.PeMem.Call.{CanAccess};

use gic_msi::Port;
use pe_its::{dist_op, its_op, memory_op, redist_op};
use port_rest::is_off;
use std::sync::Wait;

/// The configuration bytes of LPIs, and GICR_PROPBASER for them.
const PROPBASER: u64 = 0x300D;

/// GITS_CBASER for a queue at 0x1000, of 4096 bytes.
const CBASER: u64 = 0x8000_0000_0000_1000;

/// Eight bytes of memory each: the configuration bytes of the LPIs, and the commands MAPD of DeviceID 8 with 7 bits of EventID, MAPC of the
/// collections 0 to 3, each of the vCPU of that number, and MAPTI of the events 3, 4, 5, 6 and 67. The LPIs of the first four are eight apart, so that no two of their words share a
/// cache line.
const STORES: [(u32, u64); 30] = [
    (0x3000, 0xA1_0000_00A1),
    (0x3008, 0xA1),
    (0x3010, 0xA1),
    (0x3018, 0xA1),
    (0x1000, 0x8_0000_0008),
    (0x1008, 6),
    (0x1010, 0x8000_0000_0000_2000),
    (0x1020, 9),
    (0x1030, 0x8000_0000_0000_0000),
    (0x1040, 9),
    (0x1050, 0x8000_0000_0001_0001),
    (0x1060, 9),
    (0x1070, 0x8000_0000_0002_0002),
    (0x1080, 9),
    (0x1090, 0x8000_0000_0003_0003),
    (0x10A0, 0x8_0000_000A),
    (0x10A8, 0x2000_0000_0003),
    (0x10B0, 0),
    (0x10C0, 0x8_0000_000A),
    (0x10C8, 0x2008_0000_0004),
    (0x10D0, 1),
    (0x10E0, 0x8_0000_000A),
    (0x10E8, 0x2010_0000_0005),
    (0x10F0, 2),
    (0x1100, 0x8_0000_000A),
    (0x1108, 0x2018_0000_0006),
    (0x1110, 3),
    (0x1120, 0x8_0000_000A),
    (0x1128, 0x2004_0000_0043),
    (0x1130, 0),
];

/// GITS_CWRITER behind the commands.
const CWRITER: u64 = 0x140;

/// GICD_ISENABLER1 and GICD_ICENABLER1, and all of the SPIs 32 to 63 in them.
const ISENABLER1: u32 = 0x104;

const ICENABLER1: u32 = 0x184;

const ALL: u64 = 0xFFFF_FFFF;

/// What a vCPU writes over and over.
#[derive(Clone, Copy)]
pub(crate) enum Written {
    /// GITS_CBASER, which starts no command.
    Cbaser,
    /// GICD_ISENABLER1 and GICD_ICENABLER1 in turn, each of which changes 32 interrupts.
    Enables,
    /// GICD_ICENABLER1, which changes none.
    Kept,
}

/// Each vCPU has the configuration bytes.
fn set_tables<P: Port, R: Wait>(rt: &R, port: &mut P)
    requires { CanAccess (P.seen port.old) }
    ensures { CanAccess (P.seen port.new) }
{
    for vcpu in 0..4 {
        if vcpu < port.shape().vcpus {
            redist_op(rt, port, vcpu, 0x70, 8, Some(PROPBASER));
        }
    }
}

/// Stores eight bytes.
fn store<P: Port, R: Wait>(rt: &R, port: &mut P, address: u32, value: u64)
    requires { CanAccess (P.seen port.old) }
    ensures { CanAccess (P.seen port.new) }
{
    memory_op(rt, port, address, 8, Some(value));
}

/// Stores the configuration bytes and the commands.
fn store_all<P: Port, R: Wait>(rt: &R, port: &mut P)
    requires { CanAccess (P.seen port.old) }
    ensures { CanAccess (P.seen port.new) }
{
    for (address, value) in STORES {
        store(rt, port, address, value);
    }
}

/// Maps the events to the LPIs from 8192 on, which are enabled.
fn set_up<P: Port, R: Wait>(rt: &R, port: &mut P)
    requires { CanAccess (P.seen port.old) }
{
    set_tables(rt, port);
    store_all(rt, port);
    its_op(rt, port, 0x80, 8, Some(CBASER));
    its_op(rt, port, 0x0, 4, Some(1));
    its_op(rt, port, 0x88, 8, Some(CWRITER));
}

/// Makes the write of this number.
fn write<P: Port, R: Wait>(rt: &R, port: &mut P, written: Written, number: u32)
    requires { CanAccess (P.seen port.old) }
    ensures { CanAccess (P.seen port.new) }
{
    match written {
        Written::Cbaser => its_op(rt, port, 0x80, 8, Some(CBASER)),
        Written::Enables if number % 2 == 0 => dist_op(rt, port, ISENABLER1, 4, Some(ALL)),
        Written::Enables | Written::Kept => dist_op(rt, port, ICENABLER1, 4, Some(ALL)),
    };
}

/// Writes so often.
fn write_all<P: Port, R: Wait>(rt: &R, port: &mut P, written: Written, writes: u32)
    requires { CanAccess (P.seen port.old) }
{
    for number in 0..writes {
        write(rt, port, written, number);
    }
}

/// The actor is a vCPU that can make an access.
fn can_access<P: Port>(port: &P) -> bool
    ensures { IsTrue result → CanAccess (P.seen port.now) }
{
    port.actor() < port.shape().vcpus && is_off(port.local_ref())
}

/// Maps the events as any actor that may.
pub(crate) fn try_set_up<P: Port, R: Wait>(rt: &R, port: &mut P) {
    if can_access(port) {
        set_up(rt, port);
    }
}

/// Writes as any actor: how often, which is never where it may not.
pub(crate) fn writes<P: Port, R: Wait>(rt: &R, port: &mut P, written: Written, count: u32) -> u64
    ensures { result ≤ count }
{
    if !can_access(port) {
        return 0;
    }
    write_all(rt, port, written, count);
    u64::from(count)
}
