//! What the list registers of a PE hold after each step.

use crate::interface::{ACTIVE_40, CPU_A0, ONE_LR, TWO_LRS};
use crate::steps::LRS;
use crate::{Row, icc, message};

/// List registers after each step.
#[rattlefmt::skip]
pub const STEP_BY_STEP: [Row; 4] = [
    Row {
        shows: "two interrupts and one list register", before: ONE_LR,
        steps: &[
            &[
                message!(40), LRS, message!(41), LRS, icc!(0, "IAR1"), LRS, icc!(0, "EOIR1", 40), LRS, icc!(0, "IAR1"),
                LRS,
            ],
        ],
        lines: &[
            "2 lrs 0x0000000000000091 0x50a0000000000028",
            // 41 is left out.
            "4 lrs 0x0000000000000099 0x50a0000000000028",
            // 40 is active, and 41 has no place beside it: trap mode.
            "5 0x0000000000000028", "6 lrs 0x0000000000005c91 0x0000000000000000",
            "8 lrs 0x0000000000000091 0x50a0000000000029",
            "9 0x0000000000000029", "10 lrs 0x0000000000000091 0x90a0000000000029",
            CPU_A0, "irq 0 41 en=1 grp=1 prio=0xa0 cfg=edge line=0 rise=0 soft=0 act=0 to=0", "end 10 2",
        ],
    },
    Row {
        shows: "one that preempts, and one list register", before: ONE_LR,
        steps: &[
            &[
                message!(40), LRS, icc!(0, "IAR1"), LRS, message!(42), LRS, icc!(0, "IAR1"), LRS, icc!(0, "RPR"),
                icc!(0, "EOIR1", 42), LRS, icc!(0, "RPR"),
            ],
        ],
        lines: &[
            "2 lrs 0x0000000000000091 0x50a0000000000028",
            "3 0x0000000000000028", "4 lrs 0x0000000000000091 0x90a0000000000028",
            // One active and one pending, and then two active ones: trap mode.
            "6 lrs 0x0000000000005c91 0x0000000000000000",
            "7 0x000000000000002a", "8 lrs 0x0000000000005c91 0x0000000000000000",
            "9 0x0000000000000020", "11 lrs 0x0000000000000091 0x90a0000000000028",
            "12 0x00000000000000a0", CPU_A0, ACTIVE_40, "end 12 4",
        ],
    },
    Row {
        shows: "one that comes again while it is active", before: ONE_LR,
        steps: &[
            &[
                message!(40), LRS, icc!(0, "IAR1"), LRS, message!(40), LRS, icc!(0, "IAR1"), LRS,
                icc!(0, "EOIR1", 40), LRS, icc!(0, "IAR1"), LRS,
            ],
        ],
        lines: &[
            "2 lrs 0x0000000000000091 0x50a0000000000028",
            "3 0x0000000000000028", "4 lrs 0x0000000000000091 0x90a0000000000028",
            "6 lrs 0x0000000000000091 0xd0a0000000000028",
            "7 0x00000000000003ff", "8 lrs 0x0000000000000091 0xd0a0000000000028",
            "10 lrs 0x0000000000000091 0x50a0000000000028",
            "11 0x0000000000000028", "12 lrs 0x0000000000000091 0x90a0000000000028",
            CPU_A0, ACTIVE_40, "end 12 3",
        ],
    },
    Row {
        shows: "an active one that comes again, two more, and two list registers", before: TWO_LRS,
        steps: &[
            &[
                message!(40), LRS, icc!(0, "IAR1"), LRS, message!(40), LRS, message!(41), LRS, message!(42), LRS,
            ],
        ],
        lines: &[
            "2 lrs 0x0000000000000091 0x50a0000000000028 0x0000000000000000",
            "3 0x0000000000000028", "4 lrs 0x0000000000000091 0x90a0000000000028 0x0000000000000000",
            "6 lrs 0x0000000000000091 0xd0a0000000000028 0x0000000000000000",
            "8 lrs 0x0000000000000091 0xd0a0000000000028 0x50a0000000000029",
            // 41 is left out, so 40 asks for its end to be seen instead of standing there as pending.
            "10 lrs 0x0000000000000099 0x90a0020000000028 0x502000000000002a",
            CPU_A0, "irq 0 40 en=1 grp=1 prio=0xa0 cfg=edge line=0 rise=0 soft=1 act=0 to=0",
            "irq 0 41 en=1 grp=1 prio=0xa0 cfg=edge line=0 rise=0 soft=1 act=- to=0",
            "irq 0 42 en=1 grp=1 prio=0x20 cfg=edge line=0 rise=0 soft=1 act=- to=0", "end 10 1",
        ],
    },
];
