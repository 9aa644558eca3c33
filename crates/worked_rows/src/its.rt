//! The ITS: an LPI from its tables to the interrupt, commands, a stall and its end.

use crate::steps::MSI;
use crate::{Row, gicr, icc, mem};

/// Two vCPUs, each on a PE, 16 LPIs, and memory for tables and commands.
pub const GUEST: &str = r#""pes":2,"guests":[{"vcpus":2,"lpis":16,"ram":65536,"on":true}]"#;

/// The guest of `GUEST` with as many LPIs as there can be.
const ALL_LPIS: &str = r#""pes":2,"guests":[{"vcpus":2,"lpis":4096,"ram":65536,"on":true}]"#;

/// LPI 8195 is enabled at priority 0xA0 in the configuration table at 0x3000.
pub const CONFIGURED: &[&str] = &[mem!(0, "ram", 0x3003, 1, 0xA1)];

/// The redistributor of vCPU 0 gets its LPI tables, and listens to LPIs.
const LPIS_OF_0: &[&str] = &[
    gicr!(0, 0x70, 8, 0x300D),
    gicr!(0, 0x78, 8, 0x4000000000010000),
    gicr!(0, 0x0, 4, 1),
];

/// The same of vCPU 1.
pub const LPIS_OF_1: &[&str] = &[
    gicr!(1, 0x70, 8, 0x300D),
    gicr!(1, 0x78, 8, 0x4000000000010000),
    gicr!(1, 0x0, 4, 1),
];

/// The queue is one page at 0x1000, and the ITS is enabled.
pub const ENABLED: &[&str] = &[
    mem!(0, "gits", 0x80, 8, 0x8000000000001000),
    mem!(0, "gits", 0x0, 4, 1),
];

/// Doublewords of a command in the queue, each behind its address.
macro_rules! command {
    ($($address:literal $value:literal),*) => {
        &[$(mem!(0, "ram", $address, 8, $value)),*]
    };
}

/// The ITS with a queue of four commands that is stalled at an offset, of two digits with the bit that says so, by a fault.
macro_rules! stalled {
    ($offset:literal, $fault:literal) => {
        concat!(
            "its 0 ctlr=0x00000001 cbaser=0x8000000000001000 cwriter=0x0000000000000080 creadr=0x00000000000000",
            $offset,
            " fault=",
            $fault
        )
    };
}

pub(crate) use command;
pub(crate) use stalled;

/// The first of four commands: device 8 gets 5 bits of events.
pub const MAPD: &[&str] = command!(0x1000 0x0000000800000008, 0x1008 4, 0x1010 0x8000000000002000);

/// Collection 1 goes to vCPU 1.
pub const MAPC: &[&str] = command!(0x1020 9, 0x1030 0x8000000000010001);

/// Event 3 of device 8 is LPI 8195 of collection 1.
pub const MAPTI: &[&str] = command!(0x1040 0x000000080000000A, 0x1048 0x0000200300000003, 0x1050 1);

/// vCPU 1 waits for all of it.
pub const SYNC: &[&str] = command!(0x1060 5, 0x1070 0x10000);

/// The four commands are run, and CREADR is read.
pub const DONE: &[&str] = &[mem!(0, "gits", 0x88, 8, 0x80), mem!(0, "gits", 0x90, 8)];

/// A command of an unknown number in the place of the second.
pub const UNKNOWN: &[&str] = command!(0x1020 0x7F, 0x1030 0x8000000000010001);

const CPU_0: &str = "cpu 0 0 vmcr=0xf04c000a ap0=0x00000000 ap1=0x00000000 lpis=1";

/// vCPU 1 with nothing active.
pub const CPU_1: &str = "cpu 0 1 vmcr=0xf04c000a ap0=0x00000000 ap1=0x00000000 lpis=1";

/// vCPU 1 with the level of priority 0xA0 active.
const CPU_1_A0: &str = "cpu 0 1 vmcr=0xf04c000a ap0=0x00000000 ap1=0x00100000 lpis=1";

/// LPI 8195 at vCPU 1, neither pending nor active.
pub const LPI_8195: &str =
    "irq 0 8195 en=1 grp=1 prio=0xa0 cfg=edge line=0 rise=0 soft=0 act=- to=1";

/// The ITS with its four commands done.
pub const ITS_80: &str =
    "its 0 ctlr=0x00000001 cbaser=0x8000000000001000 cwriter=0x0000000000000080 creadr=0x0000000000000080 fault=0";

const ITS_A0: &str =
    "its 0 ctlr=0x00000001 cbaser=0x8000000000001000 cwriter=0x00000000000000a0 creadr=0x00000000000000a0 fault=0";

const ITS_C0: &str =
    "its 0 ctlr=0x00000001 cbaser=0x8000000000001000 cwriter=0x00000000000000c0 creadr=0x00000000000000c0 fault=0";

/// What a guest reads who takes LPI 8195 at vCPU 1 and ends it, and how it ends.
const TAKEN: &[&str] = &[
    "18 0x0000000000000080",
    "20 0x0000000000002003",
    "22 0x00000000000003ff",
    CPU_1,
    LPI_8195,
    ITS_80,
    "dev 0 8 bits=5",
    "evt 0 8 3 8195 1",
    "col 0 1 1",
    "end 22 3",
];

/// LPIs that reach a vCPU.
#[rattlefmt::skip]
pub const LPIS: [Row; 7] = [
    Row {
        shows: "an LPI from its tables to the interrupt", before: GUEST,
        steps: &[
            CONFIGURED, LPIS_OF_1, ENABLED, MAPD, MAPC, MAPTI, SYNC, DONE,
            &[MSI, icc!(1, "IAR1"), icc!(1, "EOIR1", 8195), icc!(1, "IAR1")],
        ],
        lines: TAKEN,
    },
    Row {
        shows: "bit 1 of an LPI's configuration is ignored", before: GUEST,
        steps: &[
            &[mem!(0, "ram", 0x3003, 1, 0xA3)], LPIS_OF_1, ENABLED, MAPD, MAPC, MAPTI, SYNC, DONE,
            &[MSI, icc!(1, "IAR1"), icc!(1, "EOIR1", 8195), icc!(1, "IAR1")],
        ],
        lines: TAKEN,
    },
    Row {
        shows: "a configuration byte outside of the memory reads 0", before: GUEST,
        steps: &[
            CONFIGURED,
            &[gicr!(1, 0x70, 8, 0xFFFFFFFFFF00D), gicr!(1, 0x78, 8, 0x4000000000010000), gicr!(1, 0x0, 4, 1)],
            ENABLED, MAPD, MAPC, MAPTI, SYNC, DONE,
            &[MSI, icc!(1, "IAR1"), icc!(1, "EOIR1", 8195), icc!(1, "IAR1")],
        ],
        lines: &[
            "18 0x0000000000000080", "20 0x00000000000003ff", "22 0x00000000000003ff", CPU_1,
            "irq 0 8195 en=0 grp=1 prio=0x00 cfg=edge line=0 rise=0 soft=1 act=- to=1",
            ITS_80, "dev 0 8 bits=5", "evt 0 8 3 8195 1", "col 0 1 1", "end 22 3",
        ],
    },
    Row {
        shows: "a new configuration counts from INV on", before: GUEST,
        steps: &[
            CONFIGURED, LPIS_OF_1, ENABLED, MAPD, MAPC, MAPTI, SYNC, DONE,
            &[mem!(0, "ram", 0x3003, 1, 0x41), MSI, icc!(1, "IAR1"), icc!(1, "RPR"), icc!(1, "EOIR1", 8195)],
            &[
                mem!(0, "ram", 0x1080, 8, 0x000000080000000C), mem!(0, "ram", 0x1088, 8, 3),
                mem!(0, "ram", 0x10A0, 8, 5), mem!(0, "ram", 0x10B0, 8, 0x10000), mem!(0, "gits", 0x88, 8, 0xC0),
                MSI, icc!(1, "IAR1"), icc!(1, "RPR"),
            ],
        ],
        lines: &[
            "18 0x0000000000000080", "21 0x0000000000002003", "22 0x00000000000000a0", "30 0x0000000000002003",
            "31 0x0000000000000040", "cpu 0 1 vmcr=0xf04c000a ap0=0x00000000 ap1=0x00000100 lpis=1",
            "irq 0 8195 en=1 grp=1 prio=0x40 cfg=edge line=0 rise=0 soft=0 act=- to=1", ITS_C0, "dev 0 8 bits=5",
            "evt 0 8 3 8195 1", "col 0 1 1", "end 31 5",
        ],
    },
    Row {
        shows: "INVALL reads the configuration of each LPI of a collection", before: GUEST,
        steps: &[
            CONFIGURED, LPIS_OF_1, ENABLED, MAPD, MAPC, MAPTI, SYNC, DONE,
            &[
                mem!(0, "ram", 0x3003, 1, 0x41), mem!(0, "ram", 0x1080, 8, 0x0D), mem!(0, "ram", 0x1090, 8, 1),
                mem!(0, "gits", 0x88, 8, 0xA0), MSI, icc!(1, "IAR1"), icc!(1, "RPR"),
            ],
        ],
        lines: &[
            "18 0x0000000000000080", "24 0x0000000000002003", "25 0x0000000000000040",
            "cpu 0 1 vmcr=0xf04c000a ap0=0x00000000 ap1=0x00000100 lpis=1",
            "irq 0 8195 en=1 grp=1 prio=0x40 cfg=edge line=0 rise=0 soft=0 act=- to=1", ITS_A0, "dev 0 8 bits=5",
            "evt 0 8 3 8195 1", "col 0 1 1", "end 25 3",
        ],
    },
    Row {
        shows: "EnableLPIs takes over the pending table, and stays", before: GUEST,
        steps: &[
            CONFIGURED, &[mem!(0, "ram", 0x400, 1, 0x08), gicr!(1, 0x70, 8, 0x300D), gicr!(1, 0x78, 8, 0)], ENABLED,
            MAPD, MAPC, MAPTI, SYNC, DONE,
            &[icc!(1, "IAR1"), gicr!(1, 0x0, 4, 1), icc!(1, "IAR1"), gicr!(1, 0x0, 4, 0), gicr!(1, 0x0, 4)],
        ],
        lines: &[
            "18 0x0000000000000080", "19 0x00000000000003ff", "21 0x0000000000002003", "23 0x0000000000000001",
            CPU_1_A0, LPI_8195, ITS_80, "dev 0 8 bits=5", "evt 0 8 3 8195 1", "col 0 1 1", "end 23 4",
        ],
    },
    Row {
        shows: "MAPI maps an event onto the LPI of its own number", before: GUEST,
        steps: &[
            CONFIGURED, LPIS_OF_1, ENABLED,
            &[
                mem!(0, "ram", 0x1000, 8, 0x0000000800000008), mem!(0, "ram", 0x1008, 8, 15),
                mem!(0, "ram", 0x1010, 8, 0x8000000000002000),
            ],
            MAPC,
            &[
                mem!(0, "ram", 0x1040, 8, 0x000000080000000B), mem!(0, "ram", 0x1048, 8, 8195),
                mem!(0, "ram", 0x1050, 8, 1),
            ],
            SYNC, DONE, &[r#"{"dev":[0,0],"msi":[8,8195]}"#, icc!(1, "IAR1")],
        ],
        lines: &[
            "18 0x0000000000000080", "20 0x0000000000002003", CPU_1_A0, LPI_8195, ITS_80, "dev 0 8 bits=16",
            "evt 0 8 8195 8195 1", "col 0 1 1", "end 20 2",
        ],
    },
];

/// Commands that stall the queue.
#[rattlefmt::skip]
pub const STALLS: [Row; 7] = [
    Row {
        shows: "a command of an unknown number stalls the queue", before: GUEST,
        steps: &[
            CONFIGURED, LPIS_OF_1, ENABLED, MAPD, UNKNOWN, MAPTI, SYNC, DONE,
        ],
        lines: &["18 0x0000000000000021", CPU_1, stalled!("21", 10), "dev 0 8 bits=5", "end 18 1"],
    },
    Row {
        shows: "a command that was mended is tried again by Retry", before: GUEST,
        steps: &[
            CONFIGURED, LPIS_OF_1, ENABLED, MAPD, UNKNOWN, MAPTI, SYNC, DONE,
            &[mem!(0, "ram", 0x1020, 8, 9), mem!(0, "gits", 0x88, 8, 0x81), mem!(0, "gits", 0x90, 8)],
        ],
        lines: &[
            "18 0x0000000000000021", "21 0x0000000000000080", CPU_1, LPI_8195, ITS_80, "dev 0 8 bits=5",
            "evt 0 8 3 8195 1", "col 0 1 1", "end 21 2",
        ],
    },
    Row {
        shows: "the last event of a device with 5 bits", before: GUEST,
        steps: &[
            CONFIGURED, LPIS_OF_1, ENABLED, MAPD, MAPC,
            command!(0x1040 0x000000080000000A, 0x1048 0x000020030000001F, 0x1050 1), SYNC, DONE,
        ],
        lines: &[
            "18 0x0000000000000080", CPU_1, LPI_8195, ITS_80, "dev 0 8 bits=5", "evt 0 8 31 8195 1", "col 0 1 1",
            "end 18 1",
        ],
    },
    Row {
        shows: "an event past the last stalls the queue", before: GUEST,
        steps: &[
            CONFIGURED, LPIS_OF_1, ENABLED, MAPD, MAPC,
            command!(0x1040 0x000000080000000A, 0x1048 0x0000200300000020, 0x1050 1), SYNC, DONE,
        ],
        lines: &["18 0x0000000000000041", CPU_1, stalled!("41", 4), "dev 0 8 bits=5", "col 0 1 1", "end 18 1"],
    },
    Row {
        shows: "the last of 4096 LPIs, which its table does not enable", before: ALL_LPIS,
        steps: &[
            CONFIGURED, LPIS_OF_1, ENABLED, MAPD, MAPC,
            command!(0x1040 0x000000080000000A, 0x1048 0x00002FFF00000003, 0x1050 1), SYNC, DONE,
        ],
        lines: &[
            "18 0x0000000000000080", CPU_1,
            "irq 0 12287 en=0 grp=1 prio=0x00 cfg=edge line=0 rise=0 soft=0 act=- to=1", ITS_80, "dev 0 8 bits=5",
            "evt 0 8 3 12287 1", "col 0 1 1", "end 18 1",
        ],
    },
    Row {
        shows: "an INTID past the last LPI stalls the queue", before: ALL_LPIS,
        steps: &[
            CONFIGURED, LPIS_OF_1, ENABLED, MAPD, MAPC,
            command!(0x1040 0x000000080000000A, 0x1048 0x0000300000000003, 0x1050 1), SYNC, DONE,
        ],
        lines: &["18 0x0000000000000041", CPU_1, stalled!("41", 6), "dev 0 8 bits=5", "col 0 1 1", "end 18 1"],
    },
    Row {
        shows: "a write of CBASER, while the ITS is disabled, ends a stall and empties the queue", before: GUEST,
        steps: &[
            CONFIGURED, LPIS_OF_1, ENABLED, MAPD, UNKNOWN, MAPTI, SYNC, DONE,
            &[
                mem!(0, "gits", 0x0, 4, 0), mem!(0, "gits", 0x80, 8, 0x8000000000001000), mem!(0, "gits", 0x90, 8),
                mem!(0, "gits", 0x88, 8), mem!(0, "gits", 0x0, 4),
            ],
        ],
        lines: &[
            "18 0x0000000000000021", "21 0x0000000000000000", "22 0x0000000000000000", "23 0x0000000080000000",
            CPU_1,
            "its 0 ctlr=0x80000000 cbaser=0x8000000000001000 cwriter=0x0000000000000000 creadr=0x0000000000000000 fault=0",
            "dev 0 8 bits=5", "end 23 4",
        ],
    },
];

/// What commands do to LPIs.
#[rattlefmt::skip]
pub const COMMANDS: [Row; 8] = [
    Row {
        shows: "MOVI moves a pending LPI to the vCPU of another collection", before: GUEST,
        steps: &[
            CONFIGURED, LPIS_OF_1, LPIS_OF_0, ENABLED, MAPD, MAPC, MAPTI, SYNC, DONE,
            &[
                MSI, mem!(0, "ram", 0x1080, 8, 9), mem!(0, "ram", 0x1090, 8, 0x8000000000000002),
                mem!(0, "ram", 0x10A0, 8, 0x0000000800000001), mem!(0, "ram", 0x10A8, 8, 3),
                mem!(0, "ram", 0x10B0, 8, 2), mem!(0, "gits", 0x88, 8, 0xC0), icc!(1, "IAR1"), icc!(0, "IAR1"),
            ],
        ],
        lines: &[
            "21 0x0000000000000080", "29 0x00000000000003ff", "30 0x0000000000002003",
            "cpu 0 0 vmcr=0xf04c000a ap0=0x00000000 ap1=0x00100000 lpis=1", CPU_1,
            "irq 0 8195 en=1 grp=1 prio=0xa0 cfg=edge line=0 rise=0 soft=0 act=- to=0", ITS_C0, "dev 0 8 bits=5",
            "evt 0 8 3 8195 2", "col 0 1 1", "col 0 2 0", "end 30 3",
        ],
    },
    Row {
        shows: "CLEAR takes back a pending LPI", before: GUEST,
        steps: &[
            CONFIGURED, LPIS_OF_1, LPIS_OF_0, ENABLED, MAPD, MAPC, MAPTI, SYNC, DONE,
            &[
                MSI, mem!(0, "ram", 0x1080, 8, 0x0000000800000004), mem!(0, "ram", 0x1088, 8, 3),
                mem!(0, "gits", 0x88, 8, 0xA0), icc!(1, "IAR1"),
            ],
        ],
        lines: &[
            "21 0x0000000000000080", "26 0x00000000000003ff", CPU_0, CPU_1, LPI_8195, ITS_A0, "dev 0 8 bits=5",
            "evt 0 8 3 8195 1", "col 0 1 1", "end 26 2",
        ],
    },
    Row {
        shows: "DISCARD forgets the event, and later messages of it", before: GUEST,
        steps: &[
            CONFIGURED, LPIS_OF_1, LPIS_OF_0, ENABLED, MAPD, MAPC, MAPTI, SYNC, DONE,
            &[
                MSI, mem!(0, "ram", 0x1080, 8, 0x000000080000000F), mem!(0, "ram", 0x1088, 8, 3),
                mem!(0, "gits", 0x88, 8, 0xA0), MSI, icc!(1, "IAR1"),
            ],
        ],
        lines: &[
            "21 0x0000000000000080", "27 0x00000000000003ff", CPU_0, CPU_1, ITS_A0, "dev 0 8 bits=5", "col 0 1 1",
            "end 27 2",
        ],
    },
    Row {
        shows: "INT makes the LPI of an event pending", before: GUEST,
        steps: &[
            CONFIGURED, LPIS_OF_1, ENABLED, MAPD, MAPC, MAPTI, SYNC, DONE,
            &[
                mem!(0, "ram", 0x1080, 8, 0x0000000800000003), mem!(0, "ram", 0x1088, 8, 3),
                mem!(0, "gits", 0x88, 8, 0xA0), icc!(1, "IAR1"),
            ],
        ],
        lines: &[
            "18 0x0000000000000080", "22 0x0000000000002003", CPU_1_A0, LPI_8195, ITS_A0, "dev 0 8 bits=5",
            "evt 0 8 3 8195 1", "col 0 1 1", "end 22 2",
        ],
    },
    Row {
        shows: "MAPC moves the pending LPIs of its collection to the new vCPU", before: GUEST,
        steps: &[
            CONFIGURED, LPIS_OF_1, LPIS_OF_0, ENABLED, MAPD, MAPC, MAPTI, SYNC, DONE,
            &[
                MSI, mem!(0, "ram", 0x1080, 8, 9), mem!(0, "ram", 0x1090, 8, 0x8000000000000001),
                mem!(0, "gits", 0x88, 8, 0xA0), icc!(1, "IAR1"), icc!(0, "IAR1"),
            ],
        ],
        lines: &[
            "21 0x0000000000000080", "26 0x00000000000003ff", "27 0x0000000000002003",
            "cpu 0 0 vmcr=0xf04c000a ap0=0x00000000 ap1=0x00100000 lpis=1", CPU_1,
            "irq 0 8195 en=1 grp=1 prio=0xa0 cfg=edge line=0 rise=0 soft=0 act=- to=0", ITS_A0, "dev 0 8 bits=5",
            "evt 0 8 3 8195 1", "col 0 1 0", "end 27 3",
        ],
    },
    Row {
        shows: "an unmapped collection keeps what is pending for its next vCPU", before: GUEST,
        steps: &[
            CONFIGURED, LPIS_OF_1, ENABLED, MAPD, MAPC, MAPTI, SYNC, DONE,
            &[
                MSI, mem!(0, "ram", 0x1080, 8, 9), mem!(0, "ram", 0x1090, 8, 1), mem!(0, "gits", 0x88, 8, 0xA0),
                icc!(1, "IAR1"), mem!(0, "ram", 0x10A0, 8, 9), mem!(0, "ram", 0x10B0, 8, 0x8000000000010001),
                mem!(0, "gits", 0x88, 8, 0xC0), icc!(1, "IAR1"),
            ],
        ],
        lines: &[
            "18 0x0000000000000080", "23 0x00000000000003ff", "27 0x0000000000002003", CPU_1_A0, LPI_8195, ITS_C0,
            "dev 0 8 bits=5", "evt 0 8 3 8195 1", "col 0 1 1", "end 27 3",
        ],
    },
    Row {
        shows: "MAPD discards the events that the device had", before: GUEST,
        steps: &[
            CONFIGURED, LPIS_OF_1, ENABLED, MAPD, MAPC, MAPTI, SYNC, DONE,
            &[
                MSI, mem!(0, "ram", 0x1080, 8, 0x0000000800000008), mem!(0, "ram", 0x1088, 8, 3),
                mem!(0, "ram", 0x1090, 8, 0x8000000000002000), mem!(0, "gits", 0x88, 8, 0xA0), icc!(1, "IAR1"),
            ],
        ],
        lines: &[
            "18 0x0000000000000080", "24 0x00000000000003ff", CPU_1, ITS_A0, "dev 0 8 bits=4", "col 0 1 1",
            "end 24 2",
        ],
    },
    Row {
        shows: "MOVALL moves the LPIs of a vCPU, and leaves the collections", before: GUEST,
        steps: &[
            CONFIGURED, LPIS_OF_1, LPIS_OF_0, ENABLED, MAPD, MAPC, MAPTI, SYNC, DONE,
            &[
                MSI, mem!(0, "ram", 0x1080, 8, 0x0E), mem!(0, "ram", 0x1090, 8, 0x10000),
                mem!(0, "ram", 0x1098, 8, 0), mem!(0, "gits", 0x88, 8, 0xA0), icc!(0, "IAR1"),
            ],
        ],
        lines: &[
            "21 0x0000000000000080", "27 0x0000000000002003",
            "cpu 0 0 vmcr=0xf04c000a ap0=0x00000000 ap1=0x00100000 lpis=1", CPU_1,
            "irq 0 8195 en=1 grp=1 prio=0xa0 cfg=edge line=0 rise=0 soft=0 act=- to=0", ITS_A0, "dev 0 8 bits=5",
            "evt 0 8 3 8195 1", "col 0 1 1", "end 27 2",
        ],
    },
];
