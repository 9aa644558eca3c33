//! Commands of the ITS that stall the queue: each is the set-up of an LPI with one thing changed.

use crate::its::{
    CONFIGURED, CPU_1, DONE, ENABLED, GUEST, LPI_8195, LPIS_OF_1, MAPC, MAPD, MAPTI, SYNC, command,
    stalled,
};
use crate::{Row, mem};

/// A command with each fault.
#[rattlefmt::skip]
pub const FAULTS: [Row; 7] = [
    Row {
        shows: "a device past the last", before: GUEST,
        steps: &[
            CONFIGURED, LPIS_OF_1, ENABLED,
            command!(0x1000 0x0001000000000008, 0x1008 4, 0x1010 0x8000000000002000), MAPC, MAPTI, SYNC, DONE,
        ],
        lines: &["18 0x0000000000000001", CPU_1, stalled!("01", 1), "end 18 1"],
    },
    Row {
        shows: "a device with too many events", before: GUEST,
        steps: &[
            CONFIGURED, LPIS_OF_1, ENABLED,
            command!(0x1000 0x0000000800000008, 0x1008 16, 0x1010 0x8000000000002000), MAPC, MAPTI, SYNC, DONE,
        ],
        lines: &["18 0x0000000000000001", CPU_1, stalled!("01", 2), "end 18 1"],
    },
    Row {
        shows: "an event of a device that is not mapped", before: GUEST,
        steps: &[
            CONFIGURED, LPIS_OF_1, ENABLED, MAPD, MAPC,
            command!(0x1040 0x000000090000000A, 0x1048 0x0000200300000003, 0x1050 1), SYNC, DONE,
        ],
        lines: &["18 0x0000000000000041", CPU_1, stalled!("41", 3), "dev 0 8 bits=5", "col 0 1 1", "end 18 1"],
    },
    Row {
        shows: "INT of an event that is not mapped", before: GUEST,
        steps: &[
            CONFIGURED, LPIS_OF_1, ENABLED, MAPD, MAPC, MAPTI,
            command!(0x1060 0x0000000800000003, 0x1068 4, 0x1070 0x10000), DONE,
        ],
        lines: &[
            "19 0x0000000000000061", CPU_1, LPI_8195, stalled!("61", 5), "dev 0 8 bits=5", "evt 0 8 3 8195 1", "col 0 1 1",
            "end 19 1",
        ],
    },
    Row {
        shows: "an INTID past the last LPI", before: GUEST,
        steps: &[
            CONFIGURED, LPIS_OF_1, ENABLED, MAPD, MAPC,
            command!(0x1040 0x000000080000000A, 0x1048 0x0000201000000003, 0x1050 1), SYNC, DONE,
        ],
        lines: &["18 0x0000000000000041", CPU_1, stalled!("41", 6), "dev 0 8 bits=5", "col 0 1 1", "end 18 1"],
    },
    Row {
        shows: "an event of a collection that there is not", before: GUEST,
        steps: &[
            CONFIGURED, LPIS_OF_1, ENABLED, MAPD, MAPC,
            command!(0x1040 0x000000080000000A, 0x1048 0x0000200300000003, 0x1050 2), SYNC, DONE,
        ],
        lines: &["18 0x0000000000000041", CPU_1, stalled!("41", 7), "dev 0 8 bits=5", "col 0 1 1", "end 18 1"],
    },
    Row {
        shows: "SYNC of a vCPU that there is not", before: GUEST,
        steps: &[
            CONFIGURED, LPIS_OF_1, ENABLED, MAPD, MAPC, MAPTI, command!(0x1060 5, 0x1070 0x20000), DONE,
        ],
        lines: &[
            "18 0x0000000000000061", CPU_1, LPI_8195, stalled!("61", 8), "dev 0 8 bits=5", "evt 0 8 3 8195 1", "col 0 1 1",
            "end 18 1",
        ],
    },
];
